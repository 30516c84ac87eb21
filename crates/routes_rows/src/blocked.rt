// Which levels of a span are blocked, found in one walk over the cells of its row: so a crowded row is not walked again for each level. A span is a cell that
// holds as many corners, each beside the other, as there are levels.
ghost use Rattle.std.specs.Prelude.{◌≤◌, length};
ghost use Rattle.routes_rows.specs.Booking.{first_cells};
ghost use Rattle.routes_rows.specs.Blocked.{count_in, Blocks, cell_meets, cells_meet, Spread};

use crate::book::Cell;
use routes_levels::levels::levels_in;

// The most levels of a sink.
pub const LEVELS_MOST: usize = 1_000;

// A cell blocks the levels that it overlaps: from the first one on, behind as many as there are before it, as far as its end. Most cells of a crowded row lie
// above or below, left or right of the span, so that is asked first.
// Stays (slower): `cells_overlap` makes all four tests of each cell, of which most fail the first.
pub fn block(ends: &mut [u32], span: Cell, cell: Cell)
    requires { count_in span ≤ length ends.old }
    ensures { Blocks span (cell_meets cell span) ends.old ends.new }
{
    if span.y0 < cell.y1 && cell.y0 < span.y1 && span.x0 < cell.x1 && cell.x0 < span.x1 {
        let first = levels_in(span.x0, cell.x0);
        if first < levels_in(span.x0, span.x1) {
            let k = first as usize;
            ends[k] = ends[k].max(cell.x1);
        }
    }
}

// All cells block, the newest first.
pub fn block_cells(cells: &[Cell], span: Cell, ends: &mut [u32])
    requires { count_in span ≤ length ends.old }
    ensures { Blocks span (cells_meet (first_cells cells.now (length cells.now)) span) ends.old ends.new }
{
    // Stays (slower): a walk over the elements makes one more comparison for each cell.
    let mut k = cells.len();
    while k > 0 {
        k -= 1;
        block(ends, span, cells[k]);
    }
}

// Each end, raised to those before it.
pub fn spread(ends: &mut [u32])
    ensures { Spread (length ends.old) ends.old ends.new }
{
    let mut furthest: u32 = 0;
    for end in ends.iter_mut() {
        furthest = furthest.max(*end);
        *end = furthest;
    }
}
