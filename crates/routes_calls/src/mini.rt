// `lay_mini_bus`: the corners of a sheet's board on a bus that is handed in, and the ports that they suppress.
ghost use Rattle.std.specs.Prelude.{◌≡◌, List, length};
ghost use Rattle.board.specs.Board.{Board};
ghost use Rattle.board.specs.Demands.{PageLanes, planned, plan_lanes};
ghost use Rattle.board_plan.specs.TextPlan.{work_rows};
ghost use Rattle.routes_ports.specs.Settling.{Settleable, Settled};
ghost use Rattle.routes_gutter.specs.Calls.{bus_fits, BusCalled};
ghost use Rattle.routes_calls.specs.Mini.{holds as holdsCounts, held_fits, mini_on, mini_call, crowded_at, HeldReady};
ghost use Rattle.routes_calls.specs.Turn.{BoardKnown};

use base::refusal::{Reason, Refusal};
use base::rows::{BusWireRow, PortRow, Record, RerouterRow, WorkRow};
use board::sections::{Sections, cut_sections};
use board_plan::{ANSWERS_MOST, ask, plan_text, work_lengths};
use routes::bus::{BusCount, BusCounts};
use routes_corners::turn::{has_room_to_turn, turn_corners};
use routes_gutter::laying::BusLaid;
use routes_ports::settle::settle_ports;

// Whether buffers of these lengths hold so many.
fn holds(held: BusCounts, rerouters: usize, bus_wires: usize, ports: usize) -> bool
    ensures { result ≡ holdsCounts held rerouters bus_wires ports }
{
    (held.rerouters <= rerouters) & (held.bus_wires <= bus_wires) & (held.ports <= ports)
}

// Whether the buffers hold what is handed in, with room for all that may turn on a board whose sections are cut.
fn held_fits(
    held: BusCounts,
    s: Sections<'_>,
    facts: &[WorkRow],
    rerouters: &[RerouterRow],
    bus_wires: &[BusWireRow],
    ports: &[PortRow],
) -> bool
    requires { (b : Board) × BoardKnown b s.pages.now s.nodes.now s.wires.now facts.now }
    ensures { (b : Board) → BoardKnown b s.entry.pages.now s.entry.nodes.now s.entry.wires.now facts.now → result ≡ held_fits rerouters.now bus_wires.now ports.now held b }
{
    if !holds(held, rerouters.len(), bus_wires.len(), ports.len()) {
        return false;
    }
    has_room_to_turn(s, facts, ports, held)
}

// The refusal of a crowded page, or 7 where what is handed in does not fit.
fn refuse_crowded(fits: bool, crowded: Refusal) -> Refusal
    ensures { result ≡ crowded_at fits crowded }
{
    if fits { crowded } else { Reason::NoRoom.at(0) }
}

// The ports that the bus wires of the corners suppress, settled behind those that are held; and what then stands in the buffers.
pub(crate) fn settle_corners(
    count: BusCount,
    held: BusCounts,
    bus_wires: &[BusWireRow],
    ports: &mut [PortRow],
) -> BusCounts
    requires { Settleable bus_wires.now held.bus_wires count.wires ports.old held.ports }
    ensures is { result ≡ record { rerouters = count.rerouters; bus_wires = count.wires; ports = result.ports } }
    ensures ports_settled { Settled bus_wires.now held.bus_wires count.wires ports.old held.ports ports.new result.ports }
{
    let new = &bus_wires[held.bus_wires..count.wires];
    BusCounts {
        rerouters: count.rerouters,
        bus_wires: count.wires,
        ports: settle_ports(new, ports, held.ports),
    }
}

// The corners of a board whose sections are cut, on the bus that is handed in: 7 where the buffers do not hold it with all that may turn.
// Stays (C interface): C lends each buffer and each slice of work space by itself; one struct of them all would tell what it left by nested pairs.
fn turn_held(
    held: BusCounts,
    s: Sections<'_>,
    facts: &[WorkRow],
    rerouters: &mut [RerouterRow],
    bus_wires: &mut [BusWireRow],
    ports: &mut [PortRow],
    marks: &mut [WorkRow],
) -> Result<BusLaid, Refusal>
    requires { (b : Board) × HeldReady b s.pages.now s.nodes.now s.wires.now facts.now rerouters.old bus_wires.old ports.old marks.old }
    ensures { (b : Board) (ps : List PageLanes) → HeldReady b s.entry.pages.now s.entry.nodes.now s.entry.wires.now facts.now rerouters.old bus_wires.old ports.old marks.old
        → plan_lanes b ≡ planned ps → BusCalled (mini_on rerouters.old bus_wires.old ports.old held b) rerouters.old bus_wires.old ports.old rerouters.new bus_wires.new ports.new result }
{
    if !holds(held, rerouters.len(), bus_wires.len(), ports.len()) {
        return Err(Reason::NoRoom.at(0));
    }
    let count = turn_corners(s, facts, rerouters, bus_wires, ports, held, marks)?;
    // Stays (no plainer): no group is laid by corners; one definition, BusCalled, says what this call and `lay_bus` answer and leave.
    Ok(BusLaid {
        bus: settle_corners(count, held, bus_wires, ports),
        groups: 0,
    })
}

// The corners of a sheet's board, laid on the bus that the buffers hold, or a refusal. Each slice of work space has a row for each record, the marks five.
pub fn lay_mini_bus(
    text: &[u8],
    held: BusCounts,
    rerouters: &mut [RerouterRow],
    bus_wires: &mut [BusWireRow],
    ports: &mut [PortRow],
    records: &mut [Record],
    facts: &mut [WorkRow],
    taps: &mut [WorkRow],
    groups: &mut [WorkRow],
    demands: &mut [WorkRow],
    keys: &mut [WorkRow],
    marks: &mut [WorkRow],
) -> Result<BusLaid, Refusal>
    ensures { BusCalled (mini_call text.now (bus_fits (length rerouters.old) (length bus_wires.old) (length ports.old)
        (work_rows records.old facts.old taps.old groups.old demands.old keys.old marks.old))
        rerouters.old bus_wires.old ports.old held)
        rerouters.old bus_wires.old ports.old rerouters.new bus_wires.new ports.new result }
{
    let asked = ask(
        [rerouters.len(), bus_wires.len(), ports.len(), ANSWERS_MOST],
        work_lengths(records, facts, taps, groups, demands, keys, marks),
    );
    let planned = plan_text(
        text, asked, records, facts, taps, groups, demands, keys, marks,
    )?;
    let s = cut_sections(records, planned.counts);
    match planned.taps {
        Err(crowded) => {
            let fits = held_fits(held, s, facts, rerouters, bus_wires, ports);
            Err(refuse_crowded(fits, crowded))
        }
        Ok(_) => turn_held(held, s, facts, rerouters, bus_wires, ports, marks),
    }
}
