// What is booked on a row before an item, read off the items and the answers, back from that item: the cells that block.
ghost use Rattle.std.specs.Prelude.{◌≡◌, ℕ, ◌<◌, ◌≤◌, Some, length};
ghost use Rattle.base.specs.Lists.{Found};
ghost use Rattle.routes_rows.specs.Blocked.{count_in, Blocks};
ghost use Rattle.routes_rows.specs.Booking.{cell_of};
ghost use Rattle.board.specs.Index.{found_of};
ghost use Rattle.routes_rows.specs.Entries.{level_in, corner_box, entry_at, row_before, entries_meet, RowFits};

use crate::blocked::block;
use crate::book::{Cell, NO_CELL, key_at};
use base::numbers::{MISSING, REROUTER_SIZE};
use base::rows::WorkRow;

// Where levels end: a corner is two wide, and ends within the numbers.
pub const LEVELS_END: u32 = MISSING - 1;

// The level that an answer tells, or none.
fn level_of(answer: u32) -> Option<u32>
    ensures { result ≡ found_of (level_in answer) }
{
    (answer < LEVELS_END).then_some(answer)
}

// The cell of a corner at the level that is its answer; where it has none, one that overlaps nothing.
pub fn corner_cell(y: u32, level: u32) -> Cell
    requires { y < 4294967290 }
    ensures { cell_of result ≡ corner_box y (level_in level) }
{
    found_cell(y, level_of(level))
}

// The cell of a corner at the level found for it, if one is.
pub(crate) fn found_cell(y: u32, found: Option<u32>) -> Cell
    requires { (y < 4294967290) × ((l : ℕ) → found ≡ Some l → l < 4294967294) }
    ensures { (f : Found) → found ≡ found_of f → cell_of result ≡ corner_box y f }
{
    if let Some(level) = found {
        return Cell {
            x0: level,
            x1: level + REROUTER_SIZE,
            y0: y,
            y1: y + REROUTER_SIZE,
        };
    }
    NO_CELL
}

// The cell that the item that comes p-th has booked.
fn booked_cell(items: &[WorkRow], p: usize, first: usize, answers: &[u32]) -> Cell
    requires { RowFits items.now p first answers.now }
    ensures { cell_of result ≡ (entry_at items.now first answers.now p).cell }
{
    let i = items[p][7] as usize;
    if i < first {
        return Cell::from(items[i]);
    }
    corner_cell(items[i][2], answers[i - first])
}

// All that is booked on the row before the item that comes p-th blocks; the newest first.
pub fn block_row(
    items: &[WorkRow],
    p: usize,
    first: usize,
    answers: &[u32],
    span: Cell,
    ends: &mut [u32],
)
    requires { RowFits items.now p first answers.now × (count_in span ≤ length ends.old) }
    ensures { Blocks span (entries_meet (row_before items.now first answers.now p) span) ends.old ends.new }
{
    let key = key_at(items, p);
    // Stays (no plainer): the order of the items is a column of their own rows, so a place of that order is looked up in the whole table.
    for k in (0..p).rev() {
        if key_at(items, k) != key {
            return;
        }
        block(ends, span, booked_cell(items, k, first, answers));
    }
}
