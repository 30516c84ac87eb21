// The sections' tables of fields.
ghost use Rattle.std.specs.Prelude.{◌≡◌, ◌<◌};
ghost use Rattle.sheet.specs.Table.{SECTIONS, columns_of};

use base::numbers::ORIGIN;

// Whether a field may be missing: never; it may; exactly when the field before it is.
#[derive(Clone, Copy)]
pub enum Gap {
    Never,
    May,
    AsBefore,
}

// One field of a section: what is added to its number before it is held, the least and the greatest number held, whether it may be missing.
#[derive(Clone, Copy)]
pub struct Column {
    pub origin: u32,
    pub low: u32,
    pub high: u32,
    pub gap: Gap,
}

// How far a coordinate may lie from 0.
const COORDINATE_MOST: u32 = 1_000_000;

// The greatest id, and the greatest line.
const ID_MOST: u32 = 1_000_000;

// A field whose number is held as it is.
macro_rules! between {
    ($low:expr, $high:expr, $gap:ident) => {
        Column {
            origin: 0,
            low: $low,
            high: $high,
            gap: Gap::$gap,
        }
    };
}

// A coordinate.
macro_rules! coordinate {
    ($gap:ident) => {
        Column {
            origin: ORIGIN,
            low: ORIGIN - COORDINATE_MOST,
            high: ORIGIN + COORDINATE_MOST,
            gap: Gap::$gap,
        }
    };
}

const ID: Column = between!(0, ID_MOST, Never);

const ID_OR_NONE: Column = between!(0, ID_MOST, May);

const PORT: Column = between!(0, 65_535, Never);

const HALF: Column = between!(1, 1000, Never);

const CLASS: Column = between!(0, 2, Never);

const PAGE_COLUMNS: [Column; 2] = [coordinate!(May), coordinate!(Never)];

const NODE_COLUMNS: [Column; 12] = [
    ID,
    between!(0, 5, Never),
    CLASS,
    between!(0, 1, Never),
    HALF,
    HALF,
    between!(0, 3, Never),
    coordinate!(May),
    coordinate!(AsBefore),
    between!(0, 63, May),
    coordinate!(AsBefore),
    ID_OR_NONE,
];

const CHIP_COLUMNS: [Column; 2] = [ID, ID_OR_NONE];

const INNER_COLUMNS: [Column; 3] = [ID, ID, CLASS];

const EXEC_COLUMNS: [Column; 2] = [ID, PORT];

const WIRE_COLUMNS: [Column; 4] = [ID, PORT, ID, PORT];

const TABLES: [&[Column]; 6] = [
    &PAGE_COLUMNS,
    &NODE_COLUMNS,
    &CHIP_COLUMNS,
    &INNER_COLUMNS,
    &EXEC_COLUMNS,
    &WIRE_COLUMNS,
];

// The fields of a section, by its number.
pub fn columns_of(s: usize) -> &'static [Column]
    requires { s < SECTIONS }
    ensures { result.now ≡ columns_of s }
{
    TABLES[s]
}
