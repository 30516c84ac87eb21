// Everything about text: board sheets are read here and plan sheets are written, and refusals 1 to 3 are decided.
#![tactic(auto)]

ghost use Rattle.std.specs.Prelude.{◌≡◌, ◌≤◌, true, length};
ghost use Rattle.sheet.specs.Reading.{reading, rows_from, sheet_lines, listed};
ghost use Rattle.sheet.specs.Answer.{checked_of, read_of, rows_after, row_at, row_from, counts_from};
ghost use Rattle.sheet.specs.Table.{library_most, program_most};
ghost use Rattle.sheet.specs.Walk.{all_read, SurveyedAs};

use base::refusal::{Reason, Refusal};
use base::rows::Record;
use check::{survey_rows, survey_sheet};
use line::line_at;

mod check;
mod line;
mod number;
pub mod table;
pub mod walk;
pub mod write;

// How many records of each section: P, N, C, F, X, W. Of a sheet, or the most that a caller takes.
#[repr(C)]
#[derive(Clone, Copy, Default)]
pub struct Counts {
    pub pages: usize,
    pub nodes: usize,
    pub chips: usize,
    pub inner: usize,
    pub execs: usize,
    pub wires: usize,
}

// What checking an accepted sheet finds: how many records of each section there are, how many lines, and where the first line without a lent row starts.
#[derive(Clone, Copy)]
pub struct Survey {
    pub counts: Counts,
    pub lines: usize,
    pub rest: usize,
}

// The row of one line, and where in the text a walk goes on after it.
#[derive(Clone, Copy)]
pub struct RowAt {
    pub row: Record,
    pub next: usize,
}

// The six numbers, by section.
impl From<Counts> for [usize; 6] {
    fn from(c: Counts) -> Self
        ensures { result ≡ listed c }
    {
        [c.pages, c.nodes, c.chips, c.inner, c.execs, c.wires]
    }
}

impl From<[usize; 6]> for Counts {
    fn from(l: [usize; 6]) -> Self
        ensures { result ≡ counts_from l }
    {
        Counts {
            pages: l[0],
            nodes: l[1],
            chips: l[2],
            inner: l[3],
            execs: l[4],
            wires: l[5],
        }
    }
}

// The most records that the library takes.
// Stays (no plainer): a function promises, once, that these numbers are those of the rules; a constant promises nothing, so each caller would compare the six.
pub fn library_most() -> Counts
    ensures { result ≡ library_most }
{
    Counts {
        pages: 64,
        nodes: 4096,
        chips: 256,
        inner: 4096,
        execs: 4096,
        wires: 8192,
    }
}

// The most records that the program takes.
pub fn program_most() -> Counts
    ensures { result ≡ program_most }
{
    Counts {
        pages: 8,
        nodes: 48,
        chips: 8,
        inner: 24,
        execs: 24,
        wires: 56,
    }
}

// Refusals 1 to 3 of a sheet, of which at most `most` records are taken, or how many of each section there are. It needs no work space.
pub fn check_sheet(text: &[u8], most: Counts) -> Result<Counts, Refusal>
    ensures { result ≡ checked_of (reading most text.now) }
{
    let found = survey_sheet(text, <[usize; 6]>::from(most))?;
    Ok(found.counts)
}

// The same, and the row of each line is kept, as far as rows are lent. On a refusal they hold anything.
pub fn check_rows(text: &[u8], most: Counts, rows: &mut [Record]) -> Result<Survey, Refusal>
    ensures { SurveyedAs (reading most text.now) text.now rows.new result }
{
    survey_rows(text, <[usize; 6]>::from(most), rows)
}

// The row of the line that starts at `at`.
fn row_at(text: &[u8], at: usize) -> RowAt
    ensures { result ≡ row_at text.now at }
{
    let mut row = [0u32; 16];
    match line_at(text, at, &mut row) {
        Some(line) => RowAt {
            row,
            next: line.next,
        },
        None => RowAt {
            row: [0; 16],
            next: text.len(),
        },
    }
}

// Row k of an accepted sheet: from the rows that `check_rows` kept, or behind the last of them from the line that starts at `at`. The walk goes on at `next`.
pub fn row_of(text: &[u8], rows: &[Record], k: usize, at: usize) -> RowAt
    ensures { result ≡ row_from text.now rows.now k at }
{
    match rows.get(k) {
        Some(row) => RowAt {
            row: *row,
            next: at,
        },
        None => row_at(text, at),
    }
}

// Fills the rows with those of the lines from the text's start on: there is one for each.
fn fill_rows(text: &[u8], rows: &mut [Record])
    requires { (length rows.old ≡ length (sheet_lines text.now)) × (all_read (sheet_lines text.now) ≡ true) }
    ensures { rows.new ≡ rows_from text.now }
{
    let mut at = 0;
    for row in rows.iter_mut() {
        let Some(line) = line_at(text, at, row) else {
            return;
        };
        at = line.next;
    }
}

// Reads a sheet into lent rows, one for each line: 7 where fewer rows are lent. Rows that no line takes, and all rows on a refusal, stay as they were.
pub fn read_sheet(text: &[u8], most: Counts, rows: &mut [Record]) -> Result<Counts, Refusal>
    ensures { (result ≡ read_of (length rows.old) (reading most text.now)) × (rows.new ≡ rows_after rows.old (reading most text.now)) }
{
    let found = survey_sheet(text, <[usize; 6]>::from(most))?;
    let lines = found.lines;
    if rows.len() < lines {
        return Err(Reason::NoRoom.at(0));
    }
    fill_rows(text, &mut rows[..lines]);
    Ok(found.counts)
}
