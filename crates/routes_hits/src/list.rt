// The list of hits: a run of numbers in the hit buffer, the rerouters first.
// Stays (no plainer): what writes numbers takes the lent slice with the place to write at, and gives the place behind; a struct of the two would tell what it left
// by nested pairs.
ghost use Rattle.std.specs.Prelude.{◌≡◌, [], ◌∷◌, ℕ, List, ◌+◌, ◌*◌, ◌≤◌, ◌<◌, length};
ghost use Rattle.sheet.specs.Written.{Wrote};
ghost use Rattle.base.specs.Views.{view};
ghost use Rattle.routes.specs.Buffers.{rerouter_in, wire_in};
ghost use Rattle.routes.specs.PlanSheet.{numbered};
ghost use Rattle.routes_hits.specs.Hits.{rerouter_hit, wire_hit};
ghost use Rattle.routes_hits.specs.Listing.{Listed};

use crate::boxes::{PageBox, is_under, is_wire_under};
use base::rows::{BusWireRow, RerouterRow};

// H5: how many rerouters and how many bus wires are hit.
#[repr(C)]
#[derive(Clone, Copy, Default)]
pub struct HitCounts {
    pub rerouters: usize,
    pub wires: usize,
}

// A table whose rows are listed where they are hit.
trait HitRows {
    type Row;

    // The most numbers that the list says of one row.
    ghost most: { ℕ };

    ghost said: { Self → ℕ → Self.Row → List ℕ };

    // Where the row is hit, what the list says of it.
    fn put_row(&self, number: u32, row: &Self::Row, hits: &mut [u32], at: usize) -> usize
        requires { at + most ≤ length hits.old }
        ensures { Wrote hits.old at (said self.now number row.now) hits.new result × (result ≤ at + most) };
}

// What the list says of one row.
fn put<const N: usize>(hits: &mut [u32], at: usize, said: [u32; N]) -> usize
    requires { at + N ≤ length hits.old }
    ensures { Wrote hits.old at said.entry hits.new result × (result ≡ at + N) }
{
    hits[at..at + N].copy_from_slice(&said);
    at + N
}

// H4: a rerouter's number, part and lane.
#[derive(Clone, Copy)]
struct Rerouters {
    q: PageBox,
}

impl HitRows for Rerouters {
    type Row = RerouterRow;

    ghost most = { 3 };

    ghost said = { λ table n row. rerouter_hit table.q n (rerouter_in row) };

    fn put_row(&self, number: u32, row: &RerouterRow, hits: &mut [u32], at: usize) -> usize {
        if is_under(self.q, row) {
            return put(hits, at, [number, row[5], row[8]]);
        }
        at
    }
}

// H4: a bus wire's number.
#[derive(Clone, Copy)]
struct BusWires<'a> {
    q: PageBox,
    rerouters: &'a [RerouterRow],
}

impl<'a> HitRows for BusWires<'a> {
    type Row = BusWireRow;

    ghost most = { 1 };

    ghost said = { λ table n row. wire_hit table.q (view rerouter_in table.rerouters.now (length table.rerouters.now)) n (wire_in row) };

    fn put_row(&self, number: u32, row: &BusWireRow, hits: &mut [u32], at: usize) -> usize {
        if is_wire_under(self.q, self.rerouters, row) {
            return put(hits, at, [number]);
        }
        at
    }
}

// H4: the rows of a table that are hit, from a place on.
fn put_hits<H: HitRows>(table: &H, rows: &[H::Row], hits: &mut [u32], at: usize) -> usize
    requires { (length rows.now ≤ 4294967296) × (at + H.most * length rows.now ≤ length hits.old) }
    ensures { Wrote hits.old at (numbered (H.said table.now) 0 rows.now) hits.new result × (result ≤ at + H.most * length rows.now) }
{
    let mut next = at;
    for (i, row) in rows.iter().enumerate() {
        next = table.put_row(i as u32, row, hits, next);
    }
    next
}

// H4, H5: the list of hits of a plan's rows, and the two counts.
pub fn list_hits(
    q: PageBox,
    rerouters: &[RerouterRow],
    bus_wires: &[BusWireRow],
    hits: &mut [u32],
) -> HitCounts
    requires { (length rerouters.now ≤ 4294967296) × (length bus_wires.now ≤ 4294967296) × (3 * length rerouters.now + length bus_wires.now ≤ length hits.old) }
    ensures { Listed q (view rerouter_in rerouters.now (length rerouters.now)) (view wire_in bus_wires.now (length bus_wires.now)) hits.old hits.new result }
{
    let middle = put_hits(&Rerouters { q }, rerouters, hits, 0);
    let end = put_hits(&BusWires { q, rerouters }, bus_wires, hits, middle);
    HitCounts {
        rerouters: middle / 3,
        wires: end - middle,
    }
}
