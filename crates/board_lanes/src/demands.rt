// `plan_bus`, its planning: the demands of the groups, and the lanes of each page.
ghost use Rattle.std.specs.Prelude.{◌≡◌, true, [], ◌∷◌, map, ℕ, ◌+◌, ◌≤◌, ◌<◌, length, get_or, MatchOption};
ghost use Rattle.sheet.specs.Table.{library_most};
ghost use Rattle.lanes.specs.Keys.{lane_column};
ghost use Rattle.board.specs.Board.{Board, field};
ghost use Rattle.board.specs.Demands.{lane_in};
ghost use Rattle.board.specs.Tables.{NodeFacts, WireFacts};
ghost use Rattle.board_groups.specs.Collecting.{Indexes, relaned, Packable};
ghost use Rattle.board_lanes.specs.PagePlan.{PlanHeld, NoneAsks, order_column, PageDemands, PagePacked, GutterPacked, PackingRoom, Surveyed, Collected, Room, BoardPlanned};
ghost use Rattle.board.specs.Accepted.{AcceptedNodes};

use crate::needs::{clear_groups, mark_heads, sum_taps};
use base::numbers::MISSING;
use base::refusal::{Reason, Refusal};
use base::rows::{IdRow, Record, WorkRow};
use board::sections::Sections;
use board_groups::anchors::Named;
use board_groups::groups::collect_bus_groups;
use board_groups::rows::number_rows;
use lanes::pack::LanesFull;
use lanes::rows::pack_rows;

// A board's plan: how many taps it has, and its lanes in the tables, or 8 at the line of its first crowded page.
#[derive(Clone, Copy)]
pub struct BoardPlan {
    pub plan: Result<(), Refusal>,
    pub taps: usize,
}

// The demand of a group's row.
// Stays (C interface): taps, groups and demands are rows of the lent work space, read by places.
fn demand_row(row: WorkRow, group: u32) -> WorkRow
    ensures { result ≡ get_or row 0 0 ∷ get_or row 1 0 ∷ get_or row 2 0 ∷ group ∷ 0 ∷ 0 ∷ 0 ∷ 0 ∷ [] }
{
    [row[0], row[1], row[2], group, 0, 0, 0, 0]
}

// So many marks are passed over at once.
const MARKS_AT_ONCE: usize = 8;

// Whether none of the marks from the j-th on, as many as are passed over at once, is that of the page. All are looked at, without a branch for each.
fn has_none(marks: &[u32], j: usize, p: u32) -> bool
    requires { j + 8 ≤ length marks.now }
    ensures { result ≡ true → NoneAsks marks.now p j (j + 8) }
{
    let mut hit = false;
    for mark in &marks[j..j + MARKS_AT_ONCE] {
        hit |= *mark == p;
    }
    !hit
}

// Whether so many marks are there from the j-th on, and none is that of the page.
fn passes(marks: &[u32], j: usize, p: u32) -> bool
    requires { (j ≤ length marks.now) × (length marks.now ≤ library_most.wires) }
    ensures { result ≡ true → (j + 8 ≤ length marks.now) × NoneAsks marks.now p j (j + 8) }
{
    j + MARKS_AT_ONCE <= marks.len() && has_none(marks, j, p)
}

// The first mark that is the page's.
fn first_asking(marks: &[u32], p: u32) -> Option<usize>
    ensures { MatchOption result (NoneAsks marks.now p 0 (length marks.now)) (λ i. (i < length marks.now) × NoneAsks marks.now p 0 i × (get_or marks.now i 0 ≡ p)) }
{
    marks.iter().position(|mark| *mark == p)
}

// The first tap from the k-th on that asks for a lane on the page.
fn next_asking(marks: &[u32], k: usize, p: u32) -> Option<usize>
    requires { (k ≤ length marks.now) × (length marks.now ≤ library_most.wires) }
    ensures { MatchOption result (NoneAsks marks.now p k (length marks.now))
        (λ i. (k ≤ i) × (i < length marks.now) × NoneAsks marks.now p k i × (get_or marks.now i 0 ≡ p)) }
{
    // Stays (slower): `position` alone looks at one mark after the other.
    let mut j = k;
    while passes(marks, j, p) {
        j += MARKS_AT_ONCE;
    }
    let i = first_asking(&marks[j..], p)?;
    Some(j + i)
}

// A board's taps, each with the page on which it asks for a lane, or MISSING.
#[derive(Clone, Copy)]
struct Marked<'a> {
    taps: &'a [WorkRow],
    marks: &'a [u32],
    ghost few: { (length taps.now ≤ library_most.wires) × (length marks.now ≡ length taps.now) },
}

// The demands of a page's groups, by rising first wire. Their count comes back.
fn page_demands(asking: Marked<'_>, groups: &[WorkRow], p: u32, demands: &mut [WorkRow]) -> usize
    requires room { length asking.taps.now ≤ length demands.old }
    requires packable { Packable asking.taps.now (length asking.taps.now) groups.now }
    ensures upper_bound { result ≤ length asking.entry.taps.now }
    ensures page_demands { PageDemands asking.entry.taps.now asking.entry.marks.now (length asking.entry.taps.now) groups.now p demands.new result }
{
    // Stays (no heap): the lent rows are filled from the front, and counted.
    let mut n: usize = 0;
    let mut from: usize = 0;
    while let Some(k) = next_asking(asking.marks, from, p) {
        let group = asking.taps[k][1];
        demands[n] = demand_row(groups[group as usize], group);
        n += 1;
        from = k + 1;
    }
    n
}

// Writes the lane of each demand to its group's row, the first demand of a group last.
fn place_lanes(demands: &[WorkRow], groups: &mut [WorkRow])
    requires { (j : ℕ) → j < length demands.now → field demands.now j 3 < length groups.old }
    ensures { (g : ℕ) → g < length groups.old
        → get_or groups.new g [] ≡ relaned (lane_in (map order_column demands.now) (map lane_column demands.now) g) (get_or groups.old g []) }
{
    for demand in demands.iter().rev() {
        groups[demand[3] as usize][4] = demand[4];
    }
}

// Packs the demands of a page and gives its groups their lanes.
fn plan_page(
    asking: Marked<'_>,
    groups: &mut [WorkRow],
    p: u32,
    demands: &mut [WorkRow],
    keys: &mut [WorkRow],
    spare: &mut [WorkRow],
) -> Result<usize, LanesFull>
    requires room { PackingRoom asking.taps.now demands.old keys.old spare.old }
    requires packable { Packable asking.taps.now (length asking.taps.now) groups.old }
    ensures { PagePacked asking.entry.taps.now asking.entry.marks.now (length asking.entry.taps.now) p groups.old groups.new result }
{
    let n = page_demands(asking, groups, p, demands);
    let count = pack_rows(&mut demands[..n], keys, spare)?;
    place_lanes(&demands[..n], groups);
    Ok(count)
}

// The same, but a page without min_y gets no lanes.
fn plan_gutter(
    page: Record,
    asking: Marked<'_>,
    groups: &mut [WorkRow],
    p: u32,
    demands: &mut [WorkRow],
    keys: &mut [WorkRow],
    spare: &mut [WorkRow],
) -> Result<usize, LanesFull>
    requires room { PackingRoom asking.taps.now demands.old keys.old spare.old }
    requires packable { Packable asking.taps.now (length asking.taps.now) groups.old }
    ensures { GutterPacked (get_or page 1 0) asking.entry.taps.now asking.entry.marks.now (length asking.entry.taps.now) p groups.old groups.new result }
{
    if page[1] == MISSING {
        return Ok(0);
    }
    plan_page(asking, groups, p, demands, keys, spare)
}

// Plans the pages in turn, up to the first that is crowded: 8 at its line. What is known of nodes and wires stays.
fn plan_pages(
    pages: &[Record],
    asking: Marked<'_>,
    groups: &mut [WorkRow],
    facts: &mut [WorkRow],
    demands: &mut [WorkRow],
    keys: &mut [WorkRow],
    spare: &mut [WorkRow],
) -> Result<(), Refusal>
    requires room { PackingRoom asking.taps.now demands.old keys.old spare.old }
    requires few_pages { (length pages.now ≤ library_most.pages) × (length pages.now ≤ length facts.old) }
    requires packable { Packable asking.taps.now (length asking.taps.now) groups.old }
    ensures plan_held { (b : Board) → b.pages ≡ pages.now → Surveyed b asking.entry.taps.now (length asking.entry.taps.now) groups.old asking.entry.marks.now
        → length b.wires ≤ length groups.old → PlanHeld b groups.new facts.new result }
    ensures node_facts { (b : Board) → NodeFacts b facts.old → WireFacts b facts.old → NodeFacts b facts.new × WireFacts b facts.new }
{
    for (p, page) in pages.iter().enumerate() {
        // Stays (unproved): with `map_err` the number of the page is lent to the closure, and the loop's facts no longer name it.
        let packing = plan_gutter(*page, asking, groups, p as u32, demands, keys, spare);
        let Ok(count) = packing else {
            return Err(Reason::NoLane.at(p + 1));
        };
        facts[p][6] = count as u32;
    }
    Ok(())
}

// The lanes of all groups: what each group's taps add up to, which of them ask for a lane, and then page by page.
fn plan_lanes(
    s: Sections<'_>,
    facts: &mut [WorkRow],
    taps: &[WorkRow],
    groups: &mut [WorkRow],
    demands: &mut [WorkRow],
    keys: &mut [WorkRow],
    spare: &mut [WorkRow],
) -> Result<(), Refusal>
    requires collected { (b : Board) × Collected b s.pages.now s.nodes.now s.wires.now facts.old taps.now (length taps.now) }
    requires few { (length s.pages.now ≤ library_most.pages) × (length s.nodes.now ≤ library_most.nodes) × (length s.wires.now ≤ library_most.wires) × (length taps.now ≤ length s.wires.now)
        × (length s.wires.now ≤ length facts.old) × (length s.wires.now ≤ length groups.old) × (length s.pages.now ≤ length facts.old) }
    requires room { PackingRoom taps.now demands.old keys.old spare.old }
    ensures { (b : Board) → Collected b s.entry.pages.now s.entry.nodes.now s.entry.wires.now facts.old taps.now (length taps.now)
        → NodeFacts b facts.new × WireFacts b facts.new × PlanHeld b groups.new facts.new result }
{
    clear_groups(&mut groups[..s.wires.len()]);
    sum_taps(s, facts, taps, groups);
    let mut all_marks = [0u32; 8192];
    let marks = &mut all_marks[..taps.len()];
    mark_heads(s, facts, taps, groups, marks);
    let asking = Marked { taps, marks };
    plan_pages(s.pages, asking, groups, facts, demands, keys, spare)
}

// Plans a board: its rows, its groups and its lanes. The count of taps comes back, also where a page is crowded.
// Stays (C interface): each slice of work space that C lends goes on by itself.
pub fn plan_board(
    s: Sections<'_>,
    body_index: &[IdRow],
    inner_index: &[IdRow],
    facts: &mut [WorkRow],
    taps: &mut [WorkRow],
    groups: &mut [WorkRow],
    demands: &mut [WorkRow],
    keys: &mut [WorkRow],
    spare: &mut [WorkRow],
) -> BoardPlan
    requires accepted_nodes { AcceptedNodes s.nodes.now }
    requires indexes { Indexes s.nodes.now s.inner.now body_index.now inner_index.now }
    requires room { Room s.pages.now s.nodes.now s.execs.now s.wires.now facts.old taps.old groups.old demands.old keys.old spare.old }
    ensures { BoardPlanned
        (record { pages = s.entry.pages.now; nodes = s.entry.nodes.now; chips = s.entry.chips.now; inner = s.entry.inner.now; execs = s.entry.execs.now; wires = s.entry.wires.now })
        facts.new taps.new groups.new result }
{
    let named = Named {
        sections: s,
        body_index,
        inner_index,
    };
    number_rows(s.nodes, keys, spare, facts);
    let m = collect_bus_groups(named, facts, taps);
    let plan = plan_lanes(s, facts, &taps[..m], groups, demands, keys, spare);
    BoardPlan { plan, taps: m }
}
