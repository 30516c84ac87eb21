// One line of a sheet: its section, and what its fields hold. A walker shows each field as a part of the text: the last of a line is the part that byte 10 ends,
// each other the part that a tab ends. So each field's end is looked for once, and the line's end is where its last field ends.
ghost use Rattle.std.specs.Prelude.{◌≡◌, ℕ, suc, ◌+◌, ◌-◌, ◌<◌, ◌≤◌, true, false, Some, length, get_or, drop};
ghost use Rattle.sheet.specs.declared.number.Scanned.TheVariants.{Plus};
ghost use Rattle.sheet.specs.Text.{part_of, TAB as tab};
ghost use Rattle.sheet.specs.Number.{number};
ghost use Rattle.sheet.specs.Table.{SECTIONS, columns_of as fieldsOf, letters};
ghost use Rattle.sheet.specs.Record.{allowed as mayStand, place_of, section_of, within, cell_of, empty_row};
ghost use Rattle.sheet.specs.Reading.{sheet_lines};
ghost use Rattle.sheet.specs.Answer.{front_line};
ghost use Rattle.sheet.specs.Walk.{number_in, is_gone, fields_from, line_end, FieldSays, LineSays, Names};

use crate::number::{Scanned, number_of};
use crate::table::{Column, Gap, columns_of};
use crate::walk::part_from;
use base::numbers::{MISSING, NEWLINE, TAB};
use base::rows::Record;

// Why a field holds no number: the one that it says is out of range; or it says none, or one may not stand there, or not be missing.
#[derive(Clone, Copy)]
pub enum CellFault {
    OutOfRange,
    Malformed,
}

// What a field leaves: whether its number is in range, and where the next field starts.
#[derive(Clone, Copy)]
pub struct FieldAt {
    pub fits: bool,
    pub next: usize,
}

// A line that can be read: whether its numbers are in range, its section, and where the next line starts.
#[derive(Clone, Copy)]
pub struct LineAt {
    pub section: usize,
    pub next: usize,
    pub fits: bool,
}

// Whether a field that is missing (`gone`) or not may stand in a column, after a field that is missing (`before`) or not.
fn allowed(gap: Gap, before: bool, gone: bool) -> bool
    ensures { result ≡ mayStand gap before gone }
{
    match gap {
        Gap::Never => !gone,
        Gap::May => true,
        Gap::AsBefore => before == gone,
    }
}

// A number that is held as `held`, if it lies in the range.
fn in_range(low: u32, high: u32, held: u64) -> Result<u32, CellFault>
    ensures { result ≡ within low high true held }
{
    if held < u64::from(low) || u64::from(high) < held {
        return Err(CellFault::OutOfRange);
    }
    Ok(held as u32)
}

// What a field holds in a column, after a field that is missing (`before`) or not: its number as a row holds it, MISSING for none.
fn cell_of(column: &Column, before: bool, n: Option<Scanned>) -> Result<u32, CellFault>
    requires { (v : ℕ) → n ≡ Some (Plus v) → v < 10000000000 }
    ensures { result ≡ cell_of column.now before (number_in n) }
{
    let origin = u64::from(column.origin);
    match n {
        Some(Scanned::Plus(v)) if allowed(column.gap, before, false) => in_range(
            column.low,
            column.high,
            origin + v,
        ),
        Some(Scanned::Minus(v)) if allowed(column.gap, before, false) => match origin.checked_sub(
            v,
        ) {
            Some(held) => in_range(column.low, column.high, held),
            None => Err(CellFault::OutOfRange),
        },
        Some(Scanned::Missing) if allowed(column.gap, before, true) => Ok(MISSING),
        _ => Err(CellFault::Malformed),
    }
}

// The row of a record of section `s` before its fields are read.
fn empty_row(s: usize) -> Record
    requires { s < SECTIONS }
    ensures { result ≡ empty_row s }
{
    let mut row = [0; 16];
    row[0] = s as u32;
    row
}

// The field from `at` on, which the byte `end` ends, goes into the row as its k-th number. The number in front of it tells whether the field before is missing.
#[inline(always)]
fn field_at(
    text: &[u8],
    at: usize,
    end: u8,
    column: &Column,
    row: &mut Record,
    k: usize,
) -> Option<FieldAt>
    requires { (at ≤ length text.now + 16) × (0 < k) × (k < 16) }
    ensures { FieldSays (cell_of column.now (is_gone (get_or row.old (k - 1) 0)) (number (part_of end (drop at text.now)))) (at + length (part_of end (drop at text.now)) + 1) k row.old row.new result }
{
    let field = part_from(text, at, end);
    let next = at + field.len() + 1;
    let n = number_of(field);
    match cell_of(column, row[k - 1] == MISSING, n) {
        Ok(held) => {
            row[k] = held;
            Some(FieldAt { fits: true, next })
        }
        Err(CellFault::OutOfRange) => Some(FieldAt { fits: false, next }),
        Err(CellFault::Malformed) => None,
    }
}

// The fields of a record of section `s`, from `at` on, into a row that has none yet: a tab ends each but the last, and byte 10 the last. A last field that goes up
// to the text's end is one that no byte 10 ends.
fn fields_at(text: &[u8], at: usize, s: usize, row: &mut Record) -> Option<LineAt>
    requires { (at ≤ suc (length text.now)) × (s < SECTIONS) × (row.old ≡ empty_row s) }
    ensures { LineSays (fields_from (fieldsOf s) (drop at text.now) false true 1 (empty_row s)) (line_end at (drop at text.now)) result row.new }
{
    let columns = columns_of(s);
    let (last, front) = columns.split_last()?;
    let mut fits = true;
    let mut next = at;
    for (i, column) in front.iter().enumerate() {
        let field = field_at(text, next, TAB, column, row, i + 1)?;
        fits &= field.fits;
        next = field.next;
    }
    let field = field_at(text, next, NEWLINE, last, row, columns.len())?;
    if text.len() < field.next {
        return None;
    }
    Some(LineAt {
        fits: fits & field.fits,
        section: s,
        next: field.next,
    })
}

// The section that a letter names.
// Stays (no plainer): each use of a section is its number, as a place in three lists, the first number of a row, and the order of the lines; an enum would be cast at each.
fn section_of(b: u8) -> Option<usize>
    ensures { Names (place_of b letters 0) result }
{
    match b {
        b'P' => Some(0),
        b'N' => Some(1),
        b'C' => Some(2),
        b'F' => Some(3),
        b'X' => Some(4),
        b'W' => Some(5),
        _ => None,
    }
}

// The section that the first field of the line at `at` names: its one byte is a letter.
fn section_at(text: &[u8], at: usize) -> Option<usize>
    ensures { Names (section_of (part_of tab (drop at text.now))) result }
{
    let rest = text.get(at..)?;
    let letter = rest.first()?;
    if 1 < rest.len() && rest[1] != TAB {
        return None;
    }
    section_of(*letter)
}

// The line that starts at `at`, into the row.
pub fn line_at(text: &[u8], at: usize, row: &mut Record) -> Option<LineAt>
    ensures { LineSays (front_line (sheet_lines (drop at text.now))) (line_end at (drop at text.now)) result row.new }
{
    let s = section_at(text, at)?;
    *row = empty_row(s);
    fields_at(text, at + 2, s, row)
}
