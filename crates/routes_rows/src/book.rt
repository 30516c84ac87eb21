// The cells booked on a row are a lent slice: the bricks of the row, and the rerouters placed beside it so far. What is asked for on a row is booked there
// where it is clear of them.
ghost use Rattle.std.specs.Prelude.{◌≡◌, true, false, ℕ, ◌<◌, ◌≤◌, ltb, length};
ghost use Rattle.board.specs.Rows.{cells_overlap};
ghost use Rattle.routes_rows.specs.Booking.{cell_of, key_of, order_at, begins as beginsRow, any_overlaps, clear_of, book, flags_after, first_cells, unless, count_after};

use base::rows::WorkRow;

// A cell, half-open.
#[derive(Clone, Copy)]
pub struct Cell {
    pub x0: u32,
    pub x1: u32,
    pub y0: u32,
    pub y1: u32,
}

// What books no cell has one that overlaps nothing.
// Stays (no plainer): so each item books a cell, and those who look at a row's cells need no case for one that is not there.
pub const NO_CELL: Cell = Cell {
    x0: 0,
    x1: 0,
    y0: 0,
    y1: 0,
};

// An item's cell stands in its first four columns.
impl From<WorkRow> for Cell {
    ghost use Rattle.routes_rows.specs.Booking.{cell_of, row_cell};

    ghost from_gives = { λ row cell. cell_of cell ≡ row_cell row };

    fn from(row: WorkRow) -> Cell {
        Cell {
            x0: row[0],
            x1: row[1],
            y0: row[2],
            y1: row[3],
        }
    }
}

// As many cells as there can be on one row: 4,096 bricks, and two rerouters a wire.
pub const CELLS_MOST: usize = 20_480;

// As many cells of a row are looked at before it is asked whether one of them overlaps.
// Stays (no plainer): lanes and board_lanes look at eight at once too, but share no more than that: what they look at, what they ask and what they do with a
// hit all differ.
const CELLS_AT_ONCE: usize = 8;

// C1: whether two cells overlap.
pub fn cells_overlap(a: Cell, b: Cell) -> bool
    ensures { result ≡ cells_overlap (cell_of a) (cell_of b) }
{
    (b.x0 < a.x1) & (a.x0 < b.x1) & (b.y0 < a.y1) & (a.y0 < b.y1)
}

// The key of the row of the item that comes p-th.
pub(crate) fn key_at(items: &[WorkRow], p: usize) -> u32
    requires { (p < length items.now) × (order_at items.now p < length items.now) }
    ensures { result ≡ key_of items.now (order_at items.now p) }
{
    let i = items[p][7] as usize;
    items[i][6]
}

// Whether the item that comes p-th is the first of its row.
fn begins(items: &[WorkRow], p: usize) -> bool
    requires { (p < length items.now) × ((q : ℕ) → q ≤ p → order_at items.now q < length items.now) }
    ensures { result ≡ beginsRow items.now p }
{
    p == 0 || key_at(items, p - 1) != key_at(items, p)
}

// How many cells stand on the row before the item that comes p-th, where n stood on the row of the one before it: none where a row begins.
pub fn count_before(items: &[WorkRow], p: usize, n: usize) -> usize
    requires { (p < length items.now) × ((q : ℕ) → q ≤ p → order_at items.now q < length items.now) }
    ensures { result ≡ unless (beginsRow items.now p) n }
{
    if begins(items, p) {
        return 0;
    }
    n
}

// How many of the n cells before it item i is held to: a brick to none.
pub fn count_tested(i: usize, bricks: usize, n: usize) -> usize
    ensures { result ≡ unless (ltb i bricks) n }
{
    if i < bricks {
        return 0;
    }
    n
}

// Whether one of several cells overlaps a cell. All of them are looked at, with no branch on what is found: one that is guessed wrong costs more than
// a few cells.
fn any_overlaps(cells: &[Cell], c: Cell) -> bool
    ensures { result ≡ any_overlaps (first_cells cells.now (length cells.now)) (cell_of c) }
{
    let mut hit = false;
    for cell in cells {
        hit = hit | cells_overlap(*cell, c);
    }
    hit
}

// Whether a cell is clear of several cells: so many at once, the newest first, and those that are left over last.
fn is_clear(cells: &[Cell], c: Cell) -> bool
    ensures { result ≡ clear_of (first_cells cells.now (length cells.now)) (cell_of c) }
{
    let mut k = cells.len();
    while k >= CELLS_AT_ONCE {
        k -= CELLS_AT_ONCE;
        if any_overlaps(&cells[k..k + CELLS_AT_ONCE], c) {
            return false;
        }
    }
    !any_overlaps(&cells[..k], c)
}

// A cell is written behind the first n, where it is to be.
pub fn append(cells: &mut [Cell], n: usize, c: Cell, yes: bool)
    requires { yes ≡ true → n < length cells.old }
    ensures { (length cells.new ≡ length cells.old) × (first_cells cells.new (count_after yes n) ≡ book yes (cell_of c) (first_cells cells.old n)) × (yes ≡ false → cells.new ≡ cells.old) }
{
    if yes {
        cells[n] = c;
    }
}

// Every item is booked in its turn, and its flag tells whether it is. The cells of a row are written over by those of the next.
// Stays (no plainer): who reads a flag reads it beside the answers of columns, numbers in lent rows, and asks both whether they are 1.
// Stays (no plainer): the first m rows say which rows of the whole table come, so the table is not cut to them.
pub fn book_rows(items: &[WorkRow], m: usize, bricks: usize, flags: &mut [u8])
    requires { (m ≤ length items.now) × (m ≤ 20480) × ((p : ℕ) → p < m → order_at items.now p < length items.now) × ((p : ℕ) → p < m → order_at items.now p < length flags.old) }
    ensures { flags.new ≡ flags_after items.now bricks m flags.old }
{
    let mut cells = [NO_CELL; CELLS_MOST];
    let mut n = 0;
    for p in 0..m {
        n = count_before(items, p, n);
        let i = items[p][7] as usize;
        let tested = count_tested(i, bricks, n);
        let c = Cell::from(items[i]);
        let yes = is_clear(&cells[..tested], c);
        flags[i] = u8::from(yes);
        append(&mut cells, n, c, yes);
        n += usize::from(yes);
    }
}
