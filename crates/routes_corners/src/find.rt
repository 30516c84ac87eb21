// The wires that turn: those that go down their own line's block, from one body node to another.
ghost use Rattle.std.specs.Prelude.{◌≡◌, ℕ, ◌<◌, true, false, List, [], length, slice_index, slice_index_or};
ghost use Rattle.base.specs.Lists.{none, at};
ghost use Rattle.board.specs.Board.{Board};
ghost use Rattle.board.specs.Groups.{anchor_of};
ghost use Rattle.board.specs.Refusals.{body_of};
ghost use Rattle.board.specs.Tables.{held};
ghost use Rattle.routes.specs.Bus.{Bus, muted as isMuted};
ghost use Rattle.routes.specs.Corners.{turns_down, turns as turnsAt};
ghost use Rattle.routes_corners.specs.CornerTables.{BoardOf, flag_at, WireThere, EndsThere, TestsFit, TurningBelow};

use base::numbers::MISSING;
use base::rows::{Record, WorkRow};
use board::sections::Sections;
use routes::bus::Rotation;

// What the tests on a wire read: the board and the facts of its wires, the class of each wire's target port, and of each class whether its port is suppressed.
#[derive(Clone, Copy)]
pub struct Tests<'a> {
    pub s: Sections<'a>,
    pub facts: &'a [WorkRow],
    pub classes: &'a [u32],
    pub muted: &'a [bool],
}

// K3: the tests on a source and a sink.
#[tactic(auto, using(crate::proofs::CornerLaws::turns_in_lem))]
fn turns_down(source: &Record, sink: &Record) -> bool
    ensures { (b : Board) (s t : ℕ) → slice_index_or b.nodes s [] ≡ source.now → slice_index_or b.nodes t [] ≡ sink.now → result ≡ turns_down b s t }
{
    (sink[7] == Rotation::Deg90 as u32)
        & (source[12] != MISSING)
        & (sink[12] != MISSING)
        & (source[12] == sink[12])
        & (source[10] != MISSING)
        & (sink[10] != MISSING)
        & (source[10] == sink[10])
        & (source[11] < sink[11])
        & (sink[9] < source[9])
}

// Whether the anchor of an end is that end's own body node.
fn is_body(nodes: &[Record], anchor: u32, id: u32) -> bool
    ensures anchor_in_bounds { result ≡ true → anchor < length nodes.now }
    ensures id_value { (b : Board) → b.nodes ≡ nodes.now → anchor ≡ held (anchor_of b id) → body_of b id ≡ elim result [ true ↦ at anchor | false ↦ none ] }
{
    let Some(node) = nodes.get(anchor as usize) else {
        return false;
    };
    node[1] == id
}

// K1 to K3: whether a wire passes every test but that a level is found.
fn turns(t: Tests<'_>, w: usize) -> bool
    requires { WireThere t.s.wires.now t.facts.now t.classes.now t.muted.now w }
    ensures ends_there { result ≡ true → EndsThere t.entry.s.nodes.now t.entry.facts.now w }
    ensures value { (b : Board) (bus : Bus) (pages : List (List ℕ)) → BoardOf b pages t.entry.s.nodes.now t.entry.s.wires.now t.entry.facts.now
        → flag_at t.entry.muted.now (slice_index t.entry.classes.now w) ≡ isMuted b bus w → result ≡ turnsAt b bus w }
{
    if t.facts[w][4] != 1 {
        return false;
    }
    if t.muted[t.classes[w] as usize] {
        return false;
    }
    let source = t.facts[w][2];
    if !is_body(t.s.nodes, source, t.s.wires[w][1]) {
        return false;
    }
    let sink = t.facts[w][3];
    if !is_body(t.s.nodes, sink, t.s.wires[w][3]) {
        return false;
    }
    turns_down(&t.s.nodes[source as usize], &t.s.nodes[sink as usize])
}

// The wires that pass the tests at the start, in order: how many there are. No other ever does, since a port suppressed stays so.
pub fn find_turns(t: Tests<'_>, list: &mut [u32]) -> usize
    requires { TestsFit t.s.wires.now t.facts.now t.classes.now t.muted.now list.old }
    ensures { TurningBelow t.entry.s.nodes.now t.entry.s.wires.now t.entry.facts.now t.entry.classes.now t.entry.muted.now list.new result (length t.entry.s.wires.now) }
{
    let mut n = 0;
    // Stays (no plainer): wire w has a row in three tables, and its number is what is listed.
    for w in 0..t.s.wires.len() {
        if turns(t, w) {
            list[n] = w as u32;
            n += 1;
        }
    }
    n
}
