// The ends of the wires: each one's anchor, and whether the wire passes the tests before any on its anchors.
ghost use Rattle.std.specs.Prelude.{◌≡◌, not, ◌&&◌, ◌≤◌, ◌<◌, eqb, length, get_or, IfSome};
ghost use Rattle.sheet.specs.Table.{library_most};
ghost use Rattle.base.specs.Lists.{Found};
ghost use Rattle.board.specs.Board.{Board, field};
ghost use Rattle.board.specs.Groups.{anchor_of, is_bussable};
ghost use Rattle.board.specs.Index.{Index, found_of, entry_of};
ghost use Rattle.board.specs.Tables.{held, NodeFacts, WireFacts};
ghost use Rattle.board_groups.specs.Collecting.{Indexes, inner_anchor, SomeAnchors};

use base::ids::NodeId;
use base::numbers::MISSING;
use base::rows::{IdRow, Record, WorkRow};
use board::ids::{IdIndex, top_chip};
use board::sections::Sections;

// Stays (C interface): classes and ports are numbers in the rows that are lent.
pub const CLASS_INLINE: u32 = 2;

const PORT_LAYOUT: u32 = 0;

// What may not be there, as rows hold it: MISSING for none.
pub fn held(found: Option<u32>) -> u32
    ensures { (f : Found) → found ≡ found_of f → result ≡ held f }
{
    found.unwrap_or(MISSING)
}

// A wire's end: the anchor of its node, and whether the node itself may be on the bus.
#[derive(Clone, Copy)]
pub struct End {
    pub anchor: Option<u32>,
    pub bussable: bool,
}

// A board's sections, with the indexes of the ids of its body nodes and of the nodes inside chips.
#[derive(Clone, Copy)]
pub struct Named<'a> {
    pub sections: Sections<'a>,
    pub body_index: &'a [IdRow],
    pub inner_index: &'a [IdRow],
    pub ghost indexed: { Indexes sections.nodes.now sections.inner.now body_index.now inner_index.now },
}

impl Named<'_> {
    // The body node that has the id.
    fn body_node(&self, id: NodeId) -> Option<u32>
        ensures value { result ≡ found_of (entry_of self.now.body_index.now (length self.now.sections.nodes.now) id.0) }
        ensures below { IfSome result (λ i. i < length self.now.sections.nodes.now) }
    {
        let ids = IdIndex {
            rows: self.body_index,
            count: self.sections.nodes.len(),
        };
        ids.find(id).map(|i| i as u32)
    }

    // G2: the anchor of the f-th node inside a chip: the brick of its top chip, which is looked for once. An anchor that was not asked for yet is None.
    fn inner_anchor(&self, anchors: &mut [Option<Option<u32>>], f: usize) -> Option<u32>
        requires f_in_bounds { (f < length self.now.sections.inner.now) × (length self.now.sections.inner.now ≤ length anchors.old) }
        ensures { (b : Board) → b.nodes ≡ self.now.sections.nodes.now → b.chips ≡ self.now.sections.chips.now → b.inner ≡ self.now.sections.inner.now → SomeAnchors b anchors.old
            → (result ≡ found_of (inner_anchor b f)) × SomeAnchors b anchors.new }
    {
        if let Some(anchor) = anchors[f] {
            return anchor;
        }
        let s = &self.sections;
        let top = top_chip(s.chips, NodeId(s.inner[f][2]));
        let anchor = self.body_node(top);
        anchors[f] = Some(anchor);
        anchor
    }

    // G2: the end at a node. A body node is its own anchor, a node inside a chip has the brick of its top chip.
    fn find_end(&self, anchors: &mut [Option<Option<u32>>], id: NodeId) -> End
        requires inner_in_bounds { length self.now.sections.inner.now ≤ length anchors.old }
        ensures { (b : Board) → b.nodes ≡ self.now.sections.nodes.now → b.chips ≡ self.now.sections.chips.now → b.inner ≡ self.now.sections.inner.now → SomeAnchors b anchors.old
            → ((result.anchor ≡ found_of (anchor_of b id.0)) × (result.bussable ≡ is_bussable b id.0)) × SomeAnchors b anchors.new }
    {
        let s = &self.sections;
        if let Some(i) = self.body_node(id) {
            return End {
                anchor: Some(i),
                bussable: s.nodes[i as usize][3] != CLASS_INLINE,
            };
        }
        let ids = IdIndex {
            rows: self.inner_index,
            count: s.inner.len(),
        };
        match ids.find(id) {
            Some(f) => {
                End {
                    anchor: self.inner_anchor(anchors, f),
                    bussable: s.inner[f][3] != CLASS_INLINE,
                }
            }
            None => {
                End {
                    anchor: None,
                    bussable: false,
                }
            }
        }
    }
}

// The tests on a wire before any on its anchors.
fn wire_open(wire: Record, source_bussable: bool, target_bussable: bool) -> bool
    ensures { result ≡ (not (eqb (get_or wire 2 0) 0) && not (eqb (get_or wire 4 0) 0) && not (eqb (get_or wire 1 0) (get_or wire 3 0)) && source_bussable && target_bussable) }
{
    wire[2] != PORT_LAYOUT
        && wire[4] != PORT_LAYOUT
        && wire[1] != wire[3]
        && source_bussable
        && target_bussable
}

// Writes the ends of every wire: both anchors, and whether it passes the tests before any on them. What is known of the nodes stays.
fn write_ends(named: Named<'_>, anchors: &mut [Option<Option<u32>>], facts: &mut [WorkRow])
    requires inner_in_bounds { (length named.sections.inner.now ≤ length anchors.old) × (length named.sections.wires.now ≤ length facts.old) }
    ensures { (b : Board) → b.nodes ≡ named.entry.sections.nodes.now → b.chips ≡ named.entry.sections.chips.now → b.inner ≡ named.entry.sections.inner.now
        → b.wires ≡ named.entry.sections.wires.now → SomeAnchors b anchors.old
        → NodeFacts b facts.old → NodeFacts b facts.new × WireFacts b facts.new }
{
    for (w, wire) in named.sections.wires.iter().enumerate() {
        let source = named.find_end(anchors, NodeId(wire[1]));
        let target = named.find_end(anchors, NodeId(wire[3]));
        let passes = wire_open(*wire, source.bussable, target.bussable);
        let row = facts[w];
        facts[w] = [
            row[0],
            row[1],
            held(source.anchor),
            held(target.anchor),
            u32::from(passes),
            0,
            0,
            0,
        ];
    }
}

// Finds the ends of every wire. The anchor of a node inside a chip is kept, so that a chip's parents are not walked again for each wire.
pub fn find_ends(named: Named<'_>, facts: &mut [WorkRow])
    requires wires_in_bounds { length named.sections.wires.now ≤ length facts.old }
    ensures { (b : Board) → b.nodes ≡ named.entry.sections.nodes.now → b.chips ≡ named.entry.sections.chips.now → b.inner ≡ named.entry.sections.inner.now
        → b.wires ≡ named.entry.sections.wires.now → NodeFacts b facts.old → NodeFacts b facts.new × WireFacts b facts.new }
{
    let mut anchors = [None; 4096];
    write_ends(named, &mut anchors, facts);
}
