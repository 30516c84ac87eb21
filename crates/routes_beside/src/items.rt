// The items that are booked row by row: the bricks, and behind them two for each tap, its source and its gate-side rerouter.
ghost use Rattle.std.specs.Prelude.{◌≡◌, [], Bool, Some, ℕ, ◌+◌, ◌*◌, ◌<◌, ◌≤◌, eqb, length, get_or};
ghost use Rattle.std.specs.Bool.{then_some};
ghost use Rattle.board.specs.Rows.{rerouter_cell};
ghost use Rattle.board.specs.Tables.{flag};
ghost use Rattle.routes_taps.specs.Asking.{source_item};
ghost use Rattle.routes_beside.specs.Beside.{count_on, Bases, cell_in, ItemIs, BrickItem, BrickIs, TapItems, Items, BricksAskable, TapAskable, TapsAskable};

use base::numbers::MISSING;
use base::rows::{Record, WorkRow};
use base::runs::sum_up;
use routes::laid::Laid;
use routes_taps::taps::TAP_RESERVE;

// One more node on a page, where it has one.
fn count_page(counts: &mut [u32; 64], page: u32)
    requires { (p : ℕ) → p < 64 → get_or counts.old p 0 < 4096 }
    ensures { (p : ℕ) → p < 64 → get_or counts.new p 0 ≡ flag (eqb page p) + get_or counts.old p 0 }
{
    // Stays (no plainer): a page's place behind an Option, by `get_mut`, would be opened to add one, which is no shorter than the test.
    let p = page as usize;
    if p < 64 {
        counts[p] += 1;
    }
}

// How many nodes have a row on each page.
pub fn count_pages(nodes: &[Record]) -> [u32; 64]
    requires { length nodes.now ≤ 4096 }
    ensures { (p : ℕ) → p < 64 → get_or result p 0 ≡ count_on nodes.now p }
{
    let mut counts = [0; 64];
    for node in nodes {
        count_page(&mut counts, node[10]);
    }
    counts
}

// The first key of each page: how many nodes have a row on the pages before it.
pub fn page_bases(nodes: &[Record]) -> [u32; 64]
    requires { length nodes.now ≤ 4096 }
    ensures { Bases nodes.now result }
{
    let mut bases = count_pages(nodes);
    sum_up(&mut bases);
    bases
}

// The item of a cell at x and y, so many halves wide and high, on a row of a page.
pub fn item(bases: &[u32], page: u32, row: u32, x: u32, y: u32, half_x: u32, half_y: u32) -> WorkRow
    requires page_in_bounds { (page < length bases.now) × (get_or bases.now page 0 + row ≤ 4096) }
    requires half_x_bound { (x + 2 * half_x < 4294967296) × (y + 2 * half_y < 4294967296) }
    ensures { (cell_in result ≡ record { x0 = x; x1 = x + 2 * half_x; y0 = y; y1 = y + 2 * half_y }) × (get_or result 6 0 ≡ get_or bases.now page 0 + row) }
{
    let p = page as usize;
    let key = bases[p] + row;
    [x, x + 2 * half_x, y, y + 2 * half_y, page, row, key, 0]
}

// What is no item has the key that does not come.
// Stays (no plainer): the order by keys takes rows, and leaves out those whose key is the number of keys.
pub fn no_item(last: usize) -> WorkRow
    requires { last ≤ 4096 }
    ensures { get_or result 6 0 ≡ last }
{
    [0, 0, 0, 0, 0, 0, last as u32, 0]
}

// C3: the item of a brick, if it has a row.
fn brick_item(nodes: &[Record], facts: &[WorkRow], bases: &[u32], i: usize) -> WorkRow
    requires bricks_askable { BricksAskable nodes.now facts.now }
    requires bases { Bases nodes.now bases.now × (i < length nodes.now) }
    ensures { BrickIs nodes.now facts.now i result }
{
    let page = nodes[i][10];
    if page == MISSING {
        return no_item(nodes.len());
    }
    let row = facts[i][0];
    let half_x = nodes[i][5];
    let half_y = nodes[i][6];
    let rotation = nodes[i][7];
    let x = nodes[i][8];
    let y = nodes[i][9];
    if (rotation == 1) | (rotation == 3) {
        return item(bases, page, row, x, y, half_y, half_x);
    }
    item(bases, page, row, x, y, half_x, half_y)
}

// Where a rerouter is asked for: beside a row of a page.
#[derive(Clone, Copy)]
struct Spot {
    page: u32,
    row: u32,
    x: u32,
    y: u32,
}

// C2: the item of a rerouter, if it is asked for.
fn asked_item(spot: Option<Spot>, bases: &[u32], last: usize) -> WorkRow
    requires { ((s : Spot) → spot ≡ Some s → (s.page < length bases.now) × (get_or bases.now s.page 0 + s.row ≤ 4096) × (s.x < 4294967290) × (s.y < 4294967290)) × (last ≤ 4096) }
    ensures { (t : Bool) (s : Spot) → spot ≡ then_some t s → ItemIs last t (rerouter_cell s.x s.y) (get_or bases.now s.page 0 + s.row) result }
{
    match spot {
        Some(s) => item(bases, s.page, s.row, s.x, s.y, 1, 1),
        None => no_item(last),
    }
}

// The items of the bricks.
// Stays (no plainer): an item is made of a node and its facts and written at the same place of a third table; three tables side by side would be nested pairs.
pub fn fill_bricks(nodes: &[Record], facts: &[WorkRow], bases: &[u32], items: &mut [WorkRow])
    requires bricks_askable { BricksAskable nodes.now facts.now }
    requires bases { Bases nodes.now bases.now × (length nodes.now ≤ length items.old) }
    ensures { (i : ℕ) → i < length nodes.now → BrickItem nodes.now facts.now items.new i }
{
    for i in 0..nodes.len() {
        items[i] = brick_item(nodes, facts, bases, i);
    }
}

// The two items of the k-th tap.
fn fill_tap(
    nodes: &[Record],
    laid: &[WorkRow],
    asked: &[WorkRow],
    bases: &[u32],
    k: usize,
    items: &mut [WorkRow],
)
    requires tap_askable { TapAskable nodes.now laid.now asked.now k }
    requires bases { Bases nodes.now bases.now × (length nodes.now ≤ 4096) × (k < 8192) × (k < length laid.now) × (k < length asked.now) × (source_item (length nodes.now) k + 1 < length items.old) }
    ensures { TapItems nodes.now laid.now asked.now items.new k × ((j : ℕ) → j < source_item (length nodes.now) k → get_or items.new j [] ≡ get_or items.old j []) }
{
    let bricks = nodes.len();
    let at = bricks + 2 * k;
    let page = laid[k][0];
    let source = Spot {
        page,
        row: asked[k][4],
        x: asked[k][5],
        y: asked[k][6],
    };
    let gate_side = Spot {
        page,
        row: laid[k][2],
        x: asked[k][7],
        y: laid[k][3] - TAP_RESERVE,
    };
    items[at] = asked_item((asked[k][2] == 1).then_some(source), bases, bricks);
    items[at + 1] = asked_item((asked[k][3] == 1).then_some(gate_side), bases, bricks);
}

// The items of the taps.
// Stays (no plainer): a tap's answers stand at its place in another table, and its two items behind as many as there are before it, so the taps go by their
// places.
fn fill_taps(
    nodes: &[Record],
    laid: &[WorkRow],
    asked: &[WorkRow],
    bases: &[u32],
    items: &mut [WorkRow],
)
    requires taps_askable { TapsAskable nodes.now laid.now asked.now (length laid.now) }
    requires bases { Bases nodes.now bases.now × (length nodes.now ≤ 4096) × (length nodes.now + 2 * length laid.now ≤ length items.old) }
    ensures by_index { (k : ℕ) → k < length laid.now → TapItems nodes.now laid.now asked.now items.new k }
    ensures by_index_2 { (j : ℕ) → j < length nodes.now → get_or items.new j [] ≡ get_or items.old j [] }
{
    for k in 0..laid.len() {
        fill_tap(nodes, laid, asked, bases, k, items);
    }
}

// All items.
pub fn fill_items(nodes: &[Record], laid: Laid<'_>, asked: &[WorkRow], items: &mut [WorkRow])
    requires bricks_askable { BricksAskable nodes.now laid.facts.now }
    requires taps_askable { TapsAskable nodes.now laid.taps.now asked.now (length laid.taps.now) × (length nodes.now + 2 * length laid.taps.now ≤ length items.old) }
    ensures { Items nodes.now laid.entry.facts.now laid.entry.taps.now asked.now (length laid.entry.taps.now) items.new }
{
    let bases = page_bases(nodes);
    fill_bricks(nodes, laid.facts, &bases, items);
    fill_taps(nodes, laid.taps, asked, &bases, items);
}
