// `lay_mini_bus` in one call: the tables of a board, and a bus as it is handed in.
ghost use Rattle.std.specs.Prelude.{◌≡◌, ℕ, ◌<◌, ◌≤◌, List, length};
ghost use Rattle.base.specs.Lists.{keep, upto};
ghost use Rattle.board.specs.Board.{Board};
ghost use Rattle.routes.specs.Bus.{Bus};
ghost use Rattle.routes.specs.Buffers.{Row, Rows};
ghost use Rattle.routes.specs.Corners.{turns, turnable, corners};
ghost use Rattle.routes.specs.Holding.{BusHeld};
ghost use Rattle.routes_corners.specs.Answering.{RowsRoom};
ghost use Rattle.routes_corners.specs.CornerTables.{BoardOf, Classed, firsts};
ghost use Rattle.routes_corners.specs.Handed.{CellRows, bus_in, Mutes, Handed};
ghost use Rattle.routes_corners.specs.Listing.{TurnsListed};
ghost use Rattle.routes_corners.specs.Ports.{PortsLow};
ghost use Rattle.routes_corners.specs.Turning.{has_room as hasRoomFor, BoardFits, Lent, TurnersFound, TurnedAs, TurnedFrom};
ghost use Rattle.routes_corners.specs.Writing.{WriteRoom};

use crate::decide::decide_corners;
use crate::find::{Tests, find_turns};
use crate::items::Turners;
use crate::ports::{WirePorts, class_ports, flag_ports};
use crate::write::write_corners;
use base::refusal::{Reason, Refusal};
use base::rows::{BusWireRow, PortRow, RerouterRow, WorkRow};
use board::sections::Sections;
use routes::bus::{BusCount, BusCounts};
use routes_levels::laying::WIRES_MOST;

// S15: for each wire a buffer has so many rows.
// Stays (no plainer): `board_plan` has the two numbers as well, but it plans lanes, and nothing here stands on its crate.
const REROUTERS_PER_WIRE: usize = 5;

const BUS_WIRES_PER_WIRE: usize = 6;

// A row passed by value is known to be so many numbers of 32 bits: what is read off a buffer is then what is written there.
// Stays (no plainer): this and the loop over it do nothing when they run; they let the check know the range of numbers that a lent row holds.
fn know_row<const N: usize>(row: [u32; N])
    ensures { Row N row.entry }
{}

fn know_rows<const N: usize>(rows: &[[u32; N]])
    ensures { Rows N rows.now (length rows.now) }
{
    for row in rows {
        know_row(*row);
    }
}

// E16: whether there is room for so many corners in what is lent.
#[tactic(auto, unfolding(crate::specs::Turning::has_room))]
fn has_room(wires: usize, held: BusCounts, turning: usize) -> bool
    requires { (wires ≤ 8192) × (turning ≤ wires) × (held.rerouters < 9223372036854775808) × (held.bus_wires < 9223372036854775808) × (held.ports < 9223372036854775808) }
    ensures { result ≡ hasRoomFor wires held turning }
{
    let n = held.rerouters;
    let k = held.bus_wires;
    let u = held.ports;
    (n + turning <= REROUTERS_PER_WIRE * wires)
        & (k + 2 * turning <= BUS_WIRES_PER_WIRE * wires)
        & (u + turning <= wires)
}

// The classes of the wires, and the wires that turn: none whose target port is among those handed in.
fn find_turners(
    s: Sections<'_>,
    facts: &[WorkRow],
    ports: &[PortRow],
    classes: &mut [u32],
    list: &mut [u32],
) -> usize
    requires wires_len_bound { (length s.wires.now ≤ 8192) × (length s.wires.now ≤ length facts.now) × PortsLow s.wires.now }
    requires wires_in_bounds { (length s.wires.now ≤ length classes.old) × (length s.wires.now ≤ length list.old) }
    ensures { TurnersFound s.entry.nodes.now s.entry.wires.now facts.now ports.now (length ports.now) classes.new list.new result }
{
    let wires = s.wires;
    let mut keys = [0u64; WIRES_MOST];
    let mut spare = [0u64; WIRES_MOST];
    class_ports(wires, classes, &mut keys, &mut spare);
    let by_port = WirePorts {
        wires,
        classes,
        keys: &keys,
    };
    let mut muted = [false; WIRES_MOST];
    flag_ports(by_port, ports, &mut muted);
    let tests = Tests {
        s,
        facts,
        classes,
        muted: &muted,
    };
    find_turns(tests, list)
}

// Whether the bus that is held leaves room for all that may turn, where nothing is to be laid.
pub fn has_room_to_turn(
    s: Sections<'_>,
    facts: &[WorkRow],
    ports: &[PortRow],
    held: BusCounts,
) -> bool
    requires { (length s.wires.now ≤ 8192) × (length s.wires.now ≤ length facts.now) × (held.ports ≤ length ports.now) × (held.rerouters < 9223372036854775808) × (held.bus_wires < 9223372036854775808) × PortsLow s.wires.now }
    ensures { (b : Board) (bus : Bus) (pages : List (List ℕ)) → BoardOf b pages s.entry.nodes.now s.entry.wires.now facts.now
        → Mutes b bus ports.now held.ports → result ≡ hasRoomFor (length s.entry.wires.now) held (turnable b bus) }
{
    let mut classes = [0u32; WIRES_MOST];
    let mut list = [0u32; WIRES_MOST];
    let turning = find_turners(s, facts, &ports[..held.ports], &mut classes, &mut list);
    has_room(s.wires.len(), held, turning)
}

// The corners of the wires in the list: decided row by row, and then written.
// Stays (C interface): each buffer and slice of work space is lent by itself, and goes on so to what fills it.
fn lay_corners(
    t: Turners<'_>,
    rerouters: &mut [RerouterRow],
    bus_wires: &mut [BusWireRow],
    items: &mut [WorkRow],
    count: BusCount,
) -> BusCount
    requires board_fits { BoardFits t.s.pages.now t.s.nodes.now t.s.wires.now t.facts.now }
    requires turns_listed { TurnsListed t.s.nodes.now t.facts.now t.classes.now t.list.now (length t.list.now) }
    requires rows_room { RowsRoom t.s.nodes.now t.s.wires.now t.list.now (length t.list.now) rerouters.old count.rerouters items.old }
    requires write_room { WriteRoom (length t.list.now) rerouters.old bus_wires.old count }
    ensures { (b : Board) (bus : Bus) (old old_wires : List (List ℕ)) → BoardOf b t.entry.s.pages.now t.entry.s.nodes.now t.entry.s.wires.now t.entry.facts.now → Classed t.entry.s.wires.now t.entry.classes.now (length t.entry.s.wires.now)
        → BusHeld bus old old_wires rerouters.old bus_wires.old count → CellRows bus.rerouters rerouters.old
        → firsts t.entry.list.now (length t.entry.list.now) ≡ keep (turns b bus) (upto (length b.wires)) → BusHeld (corners b bus) old old_wires rerouters.new bus_wires.new result }
{
    let mut answers = [0u32; WIRES_MOST];
    decide_corners(t, &rerouters[..count.rerouters], items, &mut answers);
    write_corners(t, &answers, rerouters, bus_wires, count)
}

// `lay_mini_bus` on the bus that is held. 7 where there is no room for all that may turn: the buffers then stay as they are.
pub fn turn_corners(
    s: Sections<'_>,
    facts: &[WorkRow],
    rerouters: &mut [RerouterRow],
    bus_wires: &mut [BusWireRow],
    ports: &[PortRow],
    held: BusCounts,
    marks: &mut [WorkRow],
) -> Result<BusCount, Refusal>
    requires board_fits { BoardFits s.pages.now s.nodes.now s.wires.now facts.now }
    requires lent { Lent (length s.nodes.now) (length s.wires.now) rerouters.old bus_wires.old ports.now marks.old held }
    ensures turned_as { (b : Board) → BoardOf b s.entry.pages.now s.entry.nodes.now s.entry.wires.now facts.now
        → TurnedAs b (bus_in rerouters.old bus_wires.old ports.now held) (length s.entry.wires.now) rerouters.old bus_wires.old held rerouters.new bus_wires.new result }
    ensures turned_from { (b : Board) (bus : Bus) (old old_wires : List (List ℕ)) → BoardOf b s.entry.pages.now s.entry.nodes.now s.entry.wires.now facts.now
        → Mutes b bus ports.now held.ports → Handed bus old old_wires rerouters.entry.now bus_wires.old (record { rerouters = held.rerouters; wires = held.bus_wires }) → TurnedFrom b bus old old_wires (length s.entry.wires.now) held rerouters.exit.now bus_wires.new result }
{
    let mut classes = [0u32; WIRES_MOST];
    let mut list = [0u32; WIRES_MOST];
    let turning = find_turners(s, facts, &ports[..held.ports], &mut classes, &mut list);
    if !has_room(s.wires.len(), held, turning) {
        return Err(Reason::NoRoom.at(0));
    }
    know_rows(&rerouters[..held.rerouters]);
    know_rows(&bus_wires[..held.bus_wires]);
    let turners = Turners {
        s,
        facts,
        classes: &classes,
        list: &list[..turning],
    };
    let count = BusCount {
        rerouters: held.rerouters,
        wires: held.bus_wires,
    };
    Ok(lay_corners(turners, rerouters, bus_wires, marks, count))
}
