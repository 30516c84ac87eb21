// What each group asks of the bus: its taps summed up, and whether it needs a lane.
ghost use Rattle.std.specs.Prelude.{◌≡◌, ◌||◌, List, [], ◌∷◌, ℕ, ◌+◌, ◌≤◌, ◌<◌, min, max, length, get_or};
ghost use Rattle.sheet.specs.Table.{MISSING as GONE, library_most};
ghost use Rattle.base.specs.Lists.{at};
ghost use Rattle.board.specs.Board.{Board, field, source_node, target_node};
ghost use Rattle.board.specs.Groups.{Tap, anchor_of, crosses, crosses_at, source_anchor, target_anchor, taps_of};
ghost use Rattle.board.specs.Demands.{first_row, last_row, needs_lane};
ghost use Rattle.base.specs.Views.{view};
ghost use Rattle.board.specs.Index.{found_of};
ghost use Rattle.board.specs.Tables.{held, tap_in, tap_target, flag, WireFacts};
ghost use Rattle.board_groups.specs.Collecting.{head_page, GroupSums};

use base::ids::NodeId;
use base::numbers::MISSING;
use base::rows::{Record, WorkRow};
use board::sections::Sections;
use board_groups::anchors::held;
use board_groups::groups::{crosses_at, is_bus_worthy_source};

// Whether a wire that became a tap enters a chip or leaves one.
fn wire_crosses(nodes: &[Record], wire: Record, fact: WorkRow) -> bool
    requires { length nodes.now ≤ library_most.nodes }
    ensures { (b : Board) (w t : ℕ) → b.nodes ≡ nodes.now → get_or b.wires w [] ≡ wire
        → get_or fact 2 0 ≡ held (anchor_of b (source_node b w)) → get_or fact 3 0 ≡ held (anchor_of b (target_node b w)) → tap_target b w ≡ at t
        → result ≡ (crosses_at b (source_anchor b w) (source_node b w) || crosses_at b (target_anchor b w) (target_node b w)) }
{
    let Some(source) = nodes.get(fact[2] as usize) else {
        return false;
    };
    let Some(target) = nodes.get(fact[3] as usize) else {
        return false;
    };
    crosses_at(*source, NodeId(wire[1])) || crosses_at(*target, NodeId(wire[3]))
}

// A group's row with one more tap.
// Stays (C interface): taps and groups are rows of the lent work space, read by places.
fn with_tap(row: WorkRow, tap: WorkRow, crosses: bool) -> WorkRow
    requires { get_or row 2 0 < library_most.wires }
    ensures value { result ≡ min (get_or tap 2 0) (get_or row 0 0) ∷ max (get_or tap 2 0) (get_or row 1 0) ∷ (get_or row 2 0 + 1) ∷ max (flag crosses) (get_or row 3 0) ∷ get_or row 4 0
        ∷ min (get_or tap 4 0) (get_or row 5 0) ∷ max (get_or tap 4 0) (get_or row 6 0) ∷ 0 ∷ [] }
    ensures tap_bound { (get_or tap 2 0 ≤ GONE) × (get_or tap 4 0 ≤ GONE) }
{
    [
        tap[2].min(row[0]),
        tap[2].max(row[1]),
        row[2] + 1,
        u32::from(crosses).max(row[3]),
        row[4],
        tap[4].min(row[5]),
        tap[4].max(row[6]),
        0,
    ]
}

// The rows of groups without a tap.
pub fn clear_groups(groups: &mut [WorkRow])
    ensures { (g : ℕ) → g < length groups.old → get_or groups.new g [] ≡ GONE ∷ 0 ∷ 0 ∷ 0 ∷ GONE ∷ GONE ∷ 0 ∷ 0 ∷ [] }
{
    groups.fill([MISSING, 0, 0, 0, MISSING, MISSING, 0, 0]);
}

// Adds each tap to its group's row.
pub fn sum_taps(s: Sections<'_>, facts: &[WorkRow], taps: &[WorkRow], groups: &mut [WorkRow])
    requires in_bounds { (length taps.now ≤ library_most.wires) × (length s.nodes.now ≤ library_most.nodes) × (length s.wires.now ≤ length facts.now) × (length s.wires.now ≤ length groups.old) }
    requires by_index { (k : ℕ) → k < length taps.now → (field taps.now k 1 < length s.wires.now) × (field taps.now k 7 < length s.wires.now) }
    requires by_index_2 { (g : ℕ) → g < length s.wires.now → get_or groups.old g [] ≡ GONE ∷ 0 ∷ 0 ∷ 0 ∷ GONE ∷ GONE ∷ 0 ∷ 0 ∷ [] }
    ensures { (b : Board) → b.nodes ≡ s.entry.nodes.now → b.wires ≡ s.entry.wires.now → WireFacts b facts.now
        → view tap_in taps.now (length taps.now) ≡ taps_of b → GroupSums b (taps_of b) groups.new }
{
    for tap in taps {
        let g = tap[1] as usize;
        let w = tap[7] as usize;
        let crosses = wire_crosses(s.nodes, s.wires[w], facts[w]);
        groups[g] = with_tap(groups[g], *tap, crosses);
    }
}

// D1: taps on several rows, a wire that crosses, or a bus-worthy source.
fn needs_lane(nodes: &[Record], source: u32, row: WorkRow) -> bool
    ensures { (b : Board) (g : ℕ) → b.nodes ≡ nodes.now → source ≡ source_anchor b g → source < length nodes.now
        → ((ts : List Tap) → get_or row 0 0 ≡ first_row b ts g → get_or row 1 0 ≡ last_row b ts g
        → get_or row 3 0 ≡ flag (crosses b ts g) → result ≡ needs_lane b ts g) }
{
    if row[0] < row[1] || row[3] != 0 {
        return true;
    }
    nodes
        .get(source as usize)
        .is_some_and(|node| is_bus_worthy_source(*node))
}

// The page of a tap that is its group's first, where the group needs a lane.
fn head_page(nodes: &[Record], source: u32, tap: WorkRow, row: WorkRow) -> Option<u32>
    ensures { (b : Board) (ts : List Tap) → b.nodes ≡ nodes.now → source ≡ source_anchor b (get_or tap 1 0) → source < length nodes.now
        → get_or row 0 0 ≡ first_row b ts (get_or tap 1 0) → get_or row 1 0 ≡ last_row b ts (get_or tap 1 0)
        → get_or row 3 0 ≡ flag (crosses b ts (get_or tap 1 0)) → result ≡ found_of (head_page b ts (tap_in tap)) }
{
    if tap[1] != tap[7] {
        return None;
    }
    needs_lane(nodes, source, row).then_some(tap[0])
}

// Marks each tap with the page on which it asks for a lane.
// Stays (slower): a mark is a number, MISSING for none, since eight numbers are compared at once (`has_none`) and eight Options are not.
pub fn mark_heads(
    s: Sections<'_>,
    facts: &[WorkRow],
    taps: &[WorkRow],
    groups: &[WorkRow],
    marks: &mut [u32],
)
    requires in_bounds { (length taps.now ≤ length marks.old) × (length s.wires.now ≤ length facts.now) × (length s.wires.now ≤ length groups.now) }
    requires by_index { (k : ℕ) → k < length taps.now → field taps.now k 1 < length s.wires.now }
    ensures { (b : Board) → b.nodes ≡ s.entry.nodes.now → b.wires ≡ s.entry.wires.now → WireFacts b facts.now
        → view tap_in taps.now (length taps.now) ≡ taps_of b → GroupSums b (taps_of b) groups.now
        → (k : ℕ) → k < length taps.now → get_or marks.new k 0 ≡ held (head_page b (taps_of b) (tap_in (get_or taps.now k []))) }
{
    // Stays (unproved): a loop over `marks.iter_mut().zip(..)` did not show what the marks end as.
    for (k, tap) in taps.iter().enumerate() {
        let g = tap[1] as usize;
        marks[k] = held(head_page(s.nodes, facts[g][2], *tap, groups[g]));
    }
}
