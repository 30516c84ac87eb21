// Corners are written by the answers to their questions: a level, or none.
ghost use Rattle.std.specs.Prelude.{◌≡◌, ℕ, ◌<◌, List, length, slice_index};
ghost use Rattle.base.specs.Lists.{Found};
ghost use Rattle.board.specs.Board.{Board, field};
ghost use Rattle.board.specs.Index.{found_of};
ghost use Rattle.routes.specs.Bus.{Bus};
ghost use Rattle.routes.specs.Corners.{corner_rerouter};
ghost use Rattle.routes.specs.Holding.{rerouter_of, BusHeld};
ghost use Rattle.routes_turns.specs.Deciding.{with_corners};
ghost use Rattle.routes_turns.specs.Told.{answers_in, told_corners, level_in};
ghost use Rattle.routes_corners.specs.CornerTables.{BoardOf, EndsThere, firsts};
ghost use Rattle.routes_corners.specs.Turning.{BoardFits};
ghost use Rattle.routes_corners.specs.Writing.{CornerThere, WriteRoom, WritesFit, EndsOf, CornerWritten, WireWritten};

use crate::items::Turners;
use base::ids::NodeId;
use base::numbers::MISSING;
use base::rows::{BusWireRow, Record, RerouterRow};
use routes::bus::{
    BusCount, End, Feed, Part, Rerouter, Role, Rotation, push_bus_node, push_delivery,
};

// K8: the corner of wire w at a level: beside its sink, at its source's height and in its colour.
fn corner_at(t: Turners<'_>, w: usize, level: u32) -> Rerouter
    requires { CornerThere t.s.pages.now t.s.nodes.now t.facts.now w }
    ensures { (b : Board) (wires : List (List ℕ)) → BoardOf b t.entry.s.pages.now t.entry.s.nodes.now wires t.entry.facts.now → rerouter_of result ≡ corner_rerouter b (field t.entry.facts.now w 2) (field t.entry.facts.now w 3) level }
{
    let source = t.s.nodes[t.facts[w][2] as usize];
    let sink = t.facts[w][3] as usize;
    let page = t.s.nodes[sink][10];
    Rerouter {
        x: level,
        y: source[9],
        z: t.s.pages[page as usize][2],
        rotation: u32::from(Rotation::Deg180),
        role: u32::from(Role::Line),
        part: u32::from(Part::Corner),
        colour: NodeId(source[1]),
        page,
        lane: None,
        row: Some(t.facts[sink][0]),
    }
}

// K10: a corner, the bus wire to it, and its delivery.
// Stays (C interface): the two buffers are lent one by one; a struct of them and the count would tell what it left by nested pairs.
fn write_corner(
    rerouters: &mut [RerouterRow],
    bus_wires: &mut [BusWireRow],
    count: BusCount,
    wire: Record,
    w: u32,
    new: Rerouter,
) -> BusCount
    requires { WriteRoom 1 rerouters.old bus_wires.old count }
    ensures { CornerWritten rerouters.old bus_wires.old count wire w new rerouters.new bus_wires.new result }
{
    let feed = Feed {
        end: End::Port {
            node: NodeId(wire[1]),
            port: wire[2],
        },
        depth: 0,
    };
    let placed = push_bus_node(rerouters, bus_wires, count, feed, new);
    push_delivery(
        bus_wires,
        placed.count,
        placed.feed,
        NodeId(wire[3]),
        wire[4],
        w,
    )
}

// A level by its answer, or none.
// Stays (no plainer): the answers are numbers, MISSING for none, as `turn_rows` says of them.
fn level_told(answer: u32) -> Option<u32>
    ensures { result ≡ found_of (level_in answer) }
{
    (answer != MISSING).then_some(answer)
}

// The corner of wire w at its level, where it has one.
fn write_told(
    t: Turners<'_>,
    w: usize,
    level: Option<u32>,
    rerouters: &mut [RerouterRow],
    bus_wires: &mut [BusWireRow],
    count: BusCount,
) -> BusCount
    requires board_fits { BoardFits t.s.pages.now t.s.nodes.now t.s.wires.now t.facts.now }
    requires ends_there { EndsThere t.s.nodes.now t.facts.now w × (w < length t.s.wires.now) }
    requires write_room { WriteRoom 1 rerouters.old bus_wires.old count }
    ensures { (told : Found) → level ≡ found_of told → WireWritten t.entry.s.pages.now t.entry.s.nodes.now t.entry.s.wires.now t.entry.facts.now w told rerouters.old bus_wires.old count rerouters.new bus_wires.new result }
{
    match level {
        None => count,
        Some(level) => {
            let new = corner_at(t, w, level);
            write_corner(rerouters, bus_wires, count, t.s.wires[w], w as u32, new)
        }
    }
}

// K8 to K10: the corners of the wires in the list, in order, each at the level that its answer tells.
pub fn write_corners(
    t: Turners<'_>,
    answers: &[u32],
    rerouters: &mut [RerouterRow],
    bus_wires: &mut [BusWireRow],
    count: BusCount,
) -> BusCount
    requires board_fits { BoardFits t.s.pages.now t.s.nodes.now t.s.wires.now t.facts.now }
    requires writes_fit { WritesFit t.s.nodes.now t.s.wires.now t.facts.now t.list.now answers.now (length t.list.now) }
    requires write_room { WriteRoom (length t.list.now) rerouters.old bus_wires.old count }
    ensures { (b : Board) (bus : Bus) (old old_wires : List (List ℕ)) → BoardOf b t.entry.s.pages.now t.entry.s.nodes.now t.entry.s.wires.now t.entry.facts.now
        → ((k : ℕ) → k < length t.entry.list.now → EndsOf b t.entry.facts.now (slice_index t.entry.list.now k)) → BusHeld bus old old_wires rerouters.old bus_wires.old count
        → BusHeld (with_corners b bus (told_corners (answers_in answers.now) (firsts t.entry.list.now (length t.entry.list.now)))) old old_wires rerouters.new bus_wires.new result }
{
    let mut done = count;
    for (q, w) in t.list.iter().enumerate() {
        let level = level_told(answers[q]);
        done = write_told(t, *w as usize, level, rerouters, bus_wires, done);
    }
    done
}
