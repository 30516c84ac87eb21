// A box on a page, and what of a plan lies under it.
ghost use Rattle.std.specs.Prelude.{◌≡◌, length};
ghost use Rattle.base.specs.Views.{view};
ghost use Rattle.routes.specs.Buffers.{rerouter_in, wire_in};
ghost use Rattle.routes_hits.specs.Hits.{lifted as liftedOf, on_board, is_under, meets as meetsOf, run_under, wire_under};

use base::numbers::{MISSING, REROUTER_SIZE};
use base::rows::{BusWireRow, RerouterRow};

// H1: a page, a range of x and a range of y. The four numbers of the ranges are in two's complement.
// Stays (C interface): C hands the four over as numbers of 32 bits, like the coordinates in the rows that it reads.
#[repr(C)]
#[derive(Clone, Copy)]
pub struct PageBox {
    pub page: u32,
    pub x0: u32,
    pub x1: u32,
    pub y0: u32,
    pub y1: u32,
}

// What is added to a number in two's complement so that the least one is 0.
const HALF: u32 = 2_147_483_648;

// A rerouter's extent.
const SIZE: u64 = REROUTER_SIZE as u64;

// H1: a number in two's complement, counted from the least one.
fn lifted(c: u32) -> u64
    ensures { result ≡ liftedOf c }
{
    u64::from(c.wrapping_add(HALF))
}

// H6: whether the box is on a board of so many pages.
pub fn is_on_board(q: PageBox, pages: usize) -> bool
    ensures { result ≡ on_board q pages }
{
    ((q.page as usize) < pages) & ((lifted(q.x0) <= lifted(q.x1)) & (lifted(q.y0) <= lifted(q.y1)))
}

// H2: whether a rerouter, by its row, is hit.
pub fn is_under(q: PageBox, row: &RerouterRow) -> bool
    ensures { result ≡ is_under q (rerouter_in row.now) }
{
    let x = lifted(row[0]);
    let y = lifted(row[1]);
    (row[7] == q.page)
        & ((lifted(q.x0) < x + SIZE)
            & (x < lifted(q.x1))
            & (lifted(q.y0) < y + SIZE)
            & (y < lifted(q.y1)))
}

// H3: whether the way from a to b meets the range from low to high, ends included.
fn meets(a: u64, b: u64, low: u64, high: u64) -> bool
    ensures { result ≡ meetsOf a b low high }
{
    (a.min(b) <= high) & (low <= a.max(b))
}

// H3: whether the run between two rerouters, by their rows, is hit.
fn is_run_under(q: PageBox, a: &RerouterRow, b: &RerouterRow) -> bool
    ensures { result ≡ run_under q (rerouter_in a.now) (rerouter_in b.now) }
{
    let ax = lifted(a[0]);
    let ay = lifted(a[1]);
    let bx = lifted(b[0]);
    let by = lifted(b[1]);
    let across = meets(ax, bx, lifted(q.x0), lifted(q.x1));
    let along = meets(ay, by, lifted(q.y0), lifted(q.y1));
    ((a[7] == q.page) & (b[7] == q.page)) & (((ax == bx) | (ay == by)) & (across & along))
}

// H3: whether a bus wire, by its row, is hit: both of its ends are rerouters, and their run is.
pub fn is_wire_under(q: PageBox, rerouters: &[RerouterRow], wire: &BusWireRow) -> bool
    ensures { result ≡ wire_under q (view rerouter_in rerouters.now (length rerouters.now)) (wire_in wire.now) }
{
    if wire[1] != MISSING || wire[3] != MISSING {
        return false;
    }
    let Some(from) = rerouters.get(wire[0] as usize) else {
        return false;
    };
    let Some(to) = rerouters.get(wire[2] as usize) else {
        return false;
    };
    is_run_under(q, from, to)
}
