// `collect_bus_groups`: which wires a lane may carry, and which of them share one. First each wire's ends, then its target, then its tap.
ghost use Rattle.std.specs.Prelude.{◌≡◌, not, ◌&&◌, ◌||◌, [], ℕ, ◌≤◌, ◌<◌, eqb, length, get_or, MatchOption};
ghost use Rattle.sheet.specs.Table.{library_most};
ghost use Rattle.base.specs.Lists.{any, upto};
ghost use Rattle.board.specs.Board.{Board, field, given, kind_chip, kind_input, kind_coerce, class_storage, class_inline, source_node, target_node};
ghost use Rattle.board.specs.Groups.{anchor_of, wire_open, taps_of};
ghost use Rattle.board.specs.Index.{found_of};
ghost use Rattle.base.specs.Views.{view};
ghost use Rattle.board.specs.Tables.{held, flag, tap_in, tap_target, NodeFacts, WireFacts, TapTargets};
ghost use Rattle.board_groups.specs.Collecting.{Indexes};
ghost use Rattle.board_groups.specs.Shares.{Wired, new_tap, Appended};

use crate::anchors::{CLASS_INLINE, Named, find_ends, held};
use crate::execs::{Execs, sort_execs};
use crate::shares::share_groups;
use base::ids::NodeId;
use base::numbers::{KIND_CHIP, MISSING};
use base::rows::{Record, WorkRow};
use board::sections::Sections;

// Stays (C interface): kinds and classes are numbers in the rows that are lent.
const KIND_INPUT: u32 = 3;

const KIND_COERCE: u32 = 5;

const CLASS_STORAGE: u32 = 1;

const PINNED: u32 = 1;

// G3: whether an anchor is bus-worthy, by its kind, its pin or its class.
pub fn is_bus_worthy_source(node: Record) -> bool
    ensures { result ≡ (eqb (get_or node 2 0) kind_input || eqb (get_or node 4 0) 1 || eqb (get_or node 3 0) class_storage) }
{
    node[2] == KIND_INPUT || node[4] == PINNED || node[3] == CLASS_STORAGE
}

// Whether a wire at the id crosses a chip's wall at this anchor: `into_chip` of a target, `out_of_chip` of a source.
pub fn crosses_at(anchor: Record, id: NodeId) -> bool
    ensures { result ≡ (not (eqb (get_or anchor 1 0) id.0) || eqb (get_or anchor 2 0) kind_chip) }
{
    anchor[1] != id.0 || anchor[2] == KIND_CHIP
}

// The tests on a wire's anchors.
fn anchors_open(execs: Execs<'_>, source: Record, target: Record, wire: Record) -> bool
    ensures { result ≡ (
        ((not (eqb (get_or target 1 0) (get_or wire 3 0)) || eqb (get_or target 2 0) kind_chip)
        || (eqb (get_or source 2 0) kind_input || eqb (get_or source 4 0) 1 || eqb (get_or source 3 0) class_storage)
        || not (any (λ e. eqb (field execs.entry.records.now e 1) (get_or wire 3 0) && eqb (field execs.entry.records.now e 2) (get_or wire 4 0)) (upto (length execs.entry.records.now))))
        && not (eqb (get_or source 3 0) class_inline) && not (eqb (get_or target 3 0) class_inline)
        && not (eqb (get_or source 2 0) kind_coerce)
        && given (get_or target 10 0)) }
{
    source[3] != CLASS_INLINE
        && target[3] != CLASS_INLINE
        && source[2] != KIND_COERCE
        && target[10] != MISSING
        && (crosses_at(target, NodeId(wire[3]))
            || is_bus_worthy_source(source)
            || !execs.targets(NodeId(wire[3]), wire[4]))
}

// The target anchor of a wire that is not passed over.
fn tap_target(nodes: &[Record], execs: Execs<'_>, wire: Record, fact: WorkRow) -> Option<u32>
    requires nodes_len_bound { length nodes.now ≤ library_most.nodes }
    ensures { (b : Board) (w : ℕ) → b.nodes ≡ nodes.now → b.execs ≡ execs.entry.records.now → get_or b.wires w [] ≡ wire
        → get_or fact 2 0 ≡ held (anchor_of b (source_node b w)) → get_or fact 3 0 ≡ held (anchor_of b (target_node b w)) → get_or fact 4 0 ≡ flag (wire_open b w)
        → result ≡ found_of (tap_target b w) }
{
    if fact[4] == 0 {
        return None;
    }
    let source = nodes.get(fact[2] as usize)?;
    let target = nodes.get(fact[3] as usize)?;
    anchors_open(execs, *source, *target, wire).then_some(fact[3])
}

// Writes each wire's target anchor beside its ends.
fn mark_wires(s: Sections<'_>, execs: Execs<'_>, facts: &mut [WorkRow])
    requires nodes_len_bound { (length s.nodes.now ≤ library_most.nodes) × (length s.wires.now ≤ length facts.old) }
    ensures { (b : Board) → b.nodes ≡ s.entry.nodes.now → b.execs ≡ execs.entry.records.now → b.wires ≡ s.entry.wires.now
        → NodeFacts b facts.old → WireFacts b facts.old
        → NodeFacts b facts.new × WireFacts b facts.new × TapTargets b facts.new }
{
    for (w, wire) in s.wires.iter().enumerate() {
        facts[w][5] = held(tap_target(s.nodes, execs, *wire, facts[w]));
    }
}

// Finds the target anchor of every wire that is not passed over.
fn mark_taps(s: Sections<'_>, facts: &mut [WorkRow])
    requires { (length s.execs.now ≤ library_most.execs) × (length s.nodes.now ≤ library_most.nodes) × (length s.wires.now ≤ length facts.old) }
    ensures { (b : Board) → b.nodes ≡ s.entry.nodes.now → b.execs ≡ s.entry.execs.now → b.wires ≡ s.entry.wires.now
        → NodeFacts b facts.old → WireFacts b facts.old
        → NodeFacts b facts.new × WireFacts b facts.new × TapTargets b facts.new }
{
    let mut all_keys = [0u64; 4096];
    let mut spare = [0u64; 4096];
    let keys = &mut all_keys[..s.execs.len()];
    sort_execs(s.execs, keys, &mut spare);
    let execs = Execs {
        records: s.execs,
        keys,
    };
    mark_wires(s, execs, facts);
}

// The tap of a wire to its target anchor, unless it is passed over. Its group is its own wire until groups are shared.
fn tap_of(nodes: &[Record], facts: &[WorkRow], w: usize, wire: Record) -> Option<WorkRow>
    requires { (w < length facts.now) × (w < library_most.wires) × (length nodes.now ≤ length facts.now) }
    ensures { MatchOption result (length nodes.now ≤ field facts.now w 5)
        (λ tap. (field facts.now w 5 < length nodes.now) × (tap ≡ new_tap nodes.now facts.now w wire (field facts.now w 5))) }
{
    let target = facts[w][5] as usize;
    let node = nodes.get(target)?;
    let row = facts[target][0];
    Some([
        node[10], w as u32, row, node[9], node[8], wire[3], wire[4], w as u32,
    ])
}

// The taps of all wires that are not passed over, in order, before groups are shared. Their count comes back.
fn append_all(s: Sections<'_>, facts: &[WorkRow], taps: &mut [WorkRow]) -> usize
    requires { (length s.wires.now ≤ length taps.old) × (length s.wires.now ≤ library_most.wires) × (length s.wires.now ≤ length facts.now) × (length s.nodes.now ≤ library_most.nodes) × (length s.nodes.now ≤ length facts.now) }
    ensures upper_bound { (result ≤ length s.entry.wires.now) × Wired s.entry.wires.now taps.new result }
    ensures appended { (b : Board) → b.nodes ≡ s.entry.nodes.now → b.wires ≡ s.entry.wires.now → NodeFacts b facts.now → TapTargets b facts.now
        → Appended b taps.new result (taps_of b) }
{
    // Stays (no heap): the lent rows are filled from the front, and counted.
    let mut m = 0;
    for (w, wire) in s.wires.iter().enumerate() {
        if let Some(tap) = tap_of(s.nodes, facts, w, *wire) {
            taps[m] = tap;
            m += 1;
        }
    }
    m
}

// The taps of all wires that are not passed over, in order. Their count comes back.
fn append_taps(s: Sections<'_>, facts: &[WorkRow], taps: &mut [WorkRow]) -> usize
    requires { (length s.wires.now ≤ length taps.old) × (length s.wires.now ≤ library_most.wires) × (length s.wires.now ≤ length facts.now) × (length s.nodes.now ≤ library_most.nodes) × (length s.nodes.now ≤ length facts.now) }
    ensures upper_bound { result ≤ length s.entry.wires.now }
    ensures result_after { (b : Board) → b.nodes ≡ s.entry.nodes.now → b.wires ≡ s.entry.wires.now → NodeFacts b facts.now → TapTargets b facts.now
        → view tap_in taps.new result ≡ taps_of b }
{
    let m = append_all(s, facts, taps);
    share_groups(s.wires, &mut taps[..m]);
    m
}

// `collect_bus_groups`: the ends of all wires, and the taps of those that a lane may carry, with their groups. The count of taps comes back.
pub fn collect_bus_groups(named: Named<'_>, facts: &mut [WorkRow], taps: &mut [WorkRow]) -> usize
    requires execs_len_bound { (length named.sections.execs.now ≤ library_most.execs) × (length named.sections.wires.now ≤ library_most.wires)
        × (length named.sections.nodes.now ≤ length facts.old) × (length named.sections.wires.now ≤ length facts.old) × (length named.sections.wires.now ≤ length taps.old) }
    ensures upper_bound { result ≤ length named.entry.sections.wires.now }
    ensures node_facts { (b : Board) → b.nodes ≡ named.entry.sections.nodes.now → b.chips ≡ named.entry.sections.chips.now → b.inner ≡ named.entry.sections.inner.now
        → b.execs ≡ named.entry.sections.execs.now → b.wires ≡ named.entry.sections.wires.now → NodeFacts b facts.old
        → NodeFacts b facts.new × WireFacts b facts.new × (view tap_in taps.new result ≡ taps_of b) }
{
    find_ends(named, facts);
    mark_taps(named.sections, facts);
    append_taps(named.sections, facts, taps)
}
