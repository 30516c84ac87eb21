// The items that corners are decided by: the bricks, the rerouters of the bus, and a question for each wire that turns.
ghost use Rattle.std.specs.Prelude.{◌≡◌, ℕ, ◌+◌, ◌<◌, ◌≤◌, ◌&&◌, List, [], length, nat_lt, slice_index, slice_index_or};
ghost use Rattle.board.specs.Board.{Board};
ghost use Rattle.routes.specs.Bus.{Bus};
ghost use Rattle.routes.specs.Buffers.{rerouter_in};
ghost use Rattle.routes_beside.specs.Beside.{Bases, BricksAskable};
ghost use Rattle.routes_turns.specs.CornerItems.{is_inside, CornerItems};
ghost use Rattle.routes_corners.specs.CornerTables.{firsts};
ghost use Rattle.routes_corners.specs.Listing.{CountsOf, BesideIs, question_row, TurnThere, TurnsListed, ItemsStored, TurnsOf};

use base::rows::{Record, RerouterRow, WorkRow};
use board::sections::Sections;
use routes::bus::inward;
use routes_beside::items::{count_pages, fill_bricks, item, no_item, page_bases};

// The wires that turn, by number: with the board and the facts of its wires, and the class of each wire's target port.
#[derive(Clone, Copy)]
pub struct Turners<'a> {
    pub s: Sections<'a>,
    pub facts: &'a [WorkRow],
    pub classes: &'a [u32],
    pub list: &'a [u32],
}

// No corner reaches beyond it.
const EDGE: u32 = 4294967290;

// Whether a rerouter stands beside a row of the board, inside the edge.
fn is_beside(counts: &[u32], page: u32, row: u32, x: u32, y: u32) -> bool
    requires { length counts.now ≡ 64 }
    ensures { result ≡ ((nat_lt page 64 && nat_lt row (slice_index counts.now page)) && is_inside x y) }
{
    let Some(count) = counts.get(page as usize) else {
        return false;
    };
    (row < *count) & (x < EDGE) & (y < EDGE)
}

// C2: the item of a rerouter.
fn beside_item(nodes: &[Record], bases: &[u32], counts: &[u32], k: RerouterRow) -> WorkRow
    requires { Bases nodes.now bases.now × CountsOf nodes.now counts.now × (length nodes.now ≤ 4096) }
    ensures { BesideIs nodes.now (rerouter_in k) result }
{
    let page = k[7];
    let row = k[9];
    let x = inward(k[0]);
    let y = inward(k[1]);
    if is_beside(counts, page, row, x, y) {
        return item(bases, page, row, x, y, 1, 1);
    }
    no_item(nodes.len())
}

// The items of the rerouters, behind the bricks.
fn fill_beside(
    nodes: &[Record],
    bases: &[u32],
    counts: &[u32],
    rerouters: &[RerouterRow],
    items: &mut [WorkRow],
)
    requires bases { Bases nodes.now bases.now × CountsOf nodes.now counts.now × (length nodes.now ≤ 4096) }
    requires items_room { length nodes.now + length rerouters.now ≤ length items.old }
    ensures by_index { (i : ℕ) → i < length rerouters.now → BesideIs nodes.now (rerouter_in (slice_index_or rerouters.now i [])) (slice_index_or items.new (length nodes.now + i) []) }
    ensures by_index_2 { (j : ℕ) → j < length nodes.now → slice_index_or items.new j [] ≡ slice_index_or items.old j [] }
{
    let bricks = nodes.len();
    for (i, row) in rerouters.iter().enumerate() {
        items[bricks + i] = beside_item(nodes, bases, counts, *row);
    }
}

// K4: the question of wire w.
fn question_item(t: Turners<'_>, items: &[WorkRow], w: usize) -> WorkRow
    requires { TurnThere t.s.nodes.now t.facts.now t.classes.now w × (length t.s.nodes.now ≤ length items.now) }
    ensures { result ≡ question_row t.entry.s.nodes.now t.entry.facts.now t.entry.classes.now items.now w }
{
    let source = t.facts[w][2] as usize;
    let sink = t.facts[w][3];
    let brick = items[sink as usize];
    let y = t.s.nodes[source][9];
    [brick[0], brick[1], y, sink, t.classes[w], 0, brick[6], 0]
}

// The questions of the wires in the list, behind the bricks and the rerouters.
fn fill_questions(t: Turners<'_>, first: usize, items: &mut [WorkRow])
    requires turns_listed { TurnsListed t.s.nodes.now t.facts.now t.classes.now t.list.now (length t.list.now) }
    requires nodes_len_bound { (length t.s.nodes.now ≤ first) × (first + length t.list.now ≤ length items.old) }
    ensures by_index { (q : ℕ) → q < length t.entry.list.now → slice_index_or items.new (first + q) [] ≡ question_row t.entry.s.nodes.now t.entry.facts.now t.entry.classes.now items.old (slice_index t.entry.list.now q) }
    ensures by_index_2 { (j : ℕ) → j < first → slice_index_or items.new j [] ≡ slice_index_or items.old j [] }
{
    for (q, w) in t.list.iter().enumerate() {
        items[first + q] = question_item(t, items, *w as usize);
    }
}

// All items: the bricks, the rerouters, the wires in the list.
pub fn fill_corners(t: Turners<'_>, rerouters: &[RerouterRow], items: &mut [WorkRow])
    requires bricks_askable { BricksAskable t.s.nodes.now t.facts.now }
    requires turns_listed { TurnsListed t.s.nodes.now t.facts.now t.classes.now t.list.now (length t.list.now) }
    requires items_room { length t.s.nodes.now + length rerouters.now + length t.list.now ≤ length items.old }
    ensures items_stored { ItemsStored t.entry.s.nodes.now t.entry.facts.now t.entry.classes.now t.entry.list.now (length t.entry.list.now) rerouters.now (length rerouters.now) items.new }
    ensures corner_items { (b : Board) (bus : Bus) (pages wires : List (List ℕ)) → TurnsOf b bus pages t.entry.s.nodes.now wires t.entry.facts.now t.entry.classes.now t.entry.list.now (length t.entry.list.now) rerouters.now (length rerouters.now)
        → CornerItems b bus (λ w. slice_index t.entry.classes.now w) t.entry.facts.now items.new (length t.entry.s.nodes.now + length rerouters.now) (firsts t.entry.list.now (length t.entry.list.now)) }
{
    let nodes = t.s.nodes;
    let bases = page_bases(nodes);
    let counts = count_pages(nodes);
    fill_bricks(nodes, t.facts, &bases, items);
    fill_beside(nodes, &bases, &counts, rerouters, items);
    fill_questions(t, nodes.len() + rerouters.len(), items);
}
