// Numbers that more than one crate names.

// A field that is missing, above every range.
// Stays (C interface): rows of tables are numbers that C callers lend and read, so a number of a row that may not be there is MISSING where it is not.
pub const MISSING: u32 = 4_294_967_295;

// A coordinate c is held as c + ORIGIN, so that no number held is negative.
pub const ORIGIN: u32 = 2_000_000;

// The pitch of lanes, and the air between the last lane and the page.
pub const LANE_PITCH: u32 = 2;

pub const BUS_BAND_GUTTER: u32 = 6;

// A rerouter is so wide and so high.
pub const REROUTER_SIZE: u32 = 2;

// The kind of a chip.
// Stays (C interface): a record's kind is a number of its row, which C callers lend and read.
pub const KIND_CHIP: u32 = 2;

// Bytes of a sheet.
pub const TAB: u8 = 9;

pub const NEWLINE: u8 = 10;

pub const MINUS: u8 = 45;

pub const ZERO: u8 = 48;

// A number has at most so many digits.
pub const DIGITS_MOST: usize = 10;
