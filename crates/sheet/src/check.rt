// Refusals 1 to 3 over a whole sheet, in one pass, which keeps the rows of the lines as far as rows are lent.
ghost use Rattle.std.specs.Prelude.{◌≡◌, ℕ, cond, drop};
ghost use Rattle.sheet.specs.Reading.{read_lines, sheet_lines};
ghost use Rattle.sheet.specs.Answer.{front_line};
ghost use Rattle.sheet.specs.Walk.{survey_of, survey_by, first_of, line_end, LineKept, SurveyedAs};

use crate::line::{LineAt, line_at};
use crate::{Counts, Survey};
use base::refusal::{Reason, Refusal};
use base::rows::Record;

// The first line found: an earlier one, or this line.
fn first_of(found: Option<usize>, here: bool, line: usize) -> Option<usize>
    ensures { result ≡ first_of found here line }
{
    found.or(here.then_some(line))
}

// Where the first line without a row starts, after a line that has one or not.
fn rest_of(so_far: usize, has_row: bool, next: usize) -> usize
    ensures { result ≡ cond has_row next so_far }
{
    if has_row { next } else { so_far }
}

// The line that starts at `at`. Its row is the k-th of the lent rows, if there is one.
fn line_into(text: &[u8], at: usize, rows: &mut [Record], k: usize) -> Option<LineAt>
    ensures { LineKept (front_line (sheet_lines (drop at text.now))) (line_end at (drop at text.now)) result k rows.old rows.new }
{
    // Stays (unproved): what `get_mut` promises says nothing of what the slice is left as.
    if k < rows.len() {
        return line_at(text, at, &mut rows[k]);
    }
    let mut row = [0u32; 16];
    line_at(text, at, &mut row)
}

// 2 before 3, once every line is read.
fn survey_by(over: Option<usize>, wide: Option<usize>, found: Survey) -> Result<Survey, Refusal>
    ensures { result ≡ survey_by over wide found }
{
    match (over, wide) {
        (Some(line), _) => Err(Reason::TooMany.at(line)),
        (None, Some(line)) => Err(Reason::OutOfRange.at(line)),
        (None, None) => Ok(found),
    }
}

// The lines are read once: the first that can't be read ends it, and the first of each other refusal is kept. Line k's row goes to `rows[k]`, as far as
// the rows reach.
pub fn survey_rows(text: &[u8], most: [usize; 6], rows: &mut [Record]) -> Result<Survey, Refusal>
    ensures { SurveyedAs (read_lines most (sheet_lines text.now)) text.now rows.new result }
{
    let mut section = 0;
    let mut counts = [0usize; 6];
    let mut over = None;
    let mut wide = None;
    let mut at = 0;
    let mut rest = 0;
    let mut k = 0;
    // Stays (no plainer): only a line itself tells where the next one starts.
    while at < text.len() {
        let line = k + 1;
        let Some(l) = line_into(text, at, rows, k) else {
            return Err(Reason::Unread.at(line));
        };
        let s = l.section;
        if s < section {
            return Err(Reason::Unread.at(line));
        }
        let n = counts[s];
        over = first_of(over, most[s] <= n, line);
        wide = first_of(wide, !l.fits, line);
        counts[s] = n + 1;
        section = s;
        at = l.next;
        rest = rest_of(rest, k < rows.len(), at);
        k = line;
    }
    let found = Survey {
        counts: Counts::from(counts),
        lines: k,
        rest,
    };
    survey_by(over, wide, found)
}

// The same without rows.
pub fn survey_sheet(text: &[u8], most: [usize; 6]) -> Result<Survey, Refusal>
    ensures { (rest : ℕ) × (result ≡ survey_of rest (read_lines most (sheet_lines text.now))) }
{
    let mut none: [Record; 0] = [];
    survey_rows(text, most, &mut none)
}
