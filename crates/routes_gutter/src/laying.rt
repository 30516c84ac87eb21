// The lanes of a planned board, laid, and the ports that their deliveries suppress settled.
ghost use Rattle.std.specs.Prelude.{◌≡◌, List, ◌≤◌, length};
ghost use Rattle.board.specs.Board.{Board};
ghost use Rattle.board.specs.Demands.{PageLanes};
ghost use Rattle.routes.specs.Plan.{bus_of, laid_groups};
ghost use Rattle.routes_gutter.specs.Bus.{RowsReady, BusStands};

use crate::lay::lay_lanes;
use base::rows::{BusWireRow, PortRow, RerouterRow, WorkRow};
use board::sections::Sections;
use routes::bus::BusCounts;
use routes_ports::settle::settle_ports;

// A bus in the buffers, and how many groups it was laid for.
#[repr(C)]
#[derive(Clone, Copy, Default)]
pub struct BusLaid {
    pub bus: BusCounts,
    pub groups: usize,
}

// The lanes of a planned board, laid, and their deliveries' ports settled. The demands and keys of planning give way to the laid taps and their stops.
pub fn lay_and_settle(
    s: Sections<'_>,
    facts: &[WorkRow],
    taps: &mut [WorkRow],
    groups: &[WorkRow],
    demands: &mut [WorkRow],
    keys: &mut [WorkRow],
    marks: &mut [WorkRow],
    rerouters: &mut [RerouterRow],
    bus_wires: &mut [BusWireRow],
    ports: &mut [PortRow],
) -> BusLaid
    requires { (b : Board) × (ps : List PageLanes) × RowsReady b ps s.pages.now s.nodes.now s.wires.now facts.now taps.old groups.now demands.old keys.old marks.old rerouters.old bus_wires.old × (length b.wires ≤ length ports.old) }
    ensures { (b : Board) (ps : List PageLanes) → RowsReady b ps s.entry.pages.now s.entry.nodes.now s.entry.wires.now facts.now taps.old groups.now demands.old keys.old marks.old rerouters.old bus_wires.old → length b.wires ≤ length ports.old
        → BusStands (bus_of b ps) rerouters.old bus_wires.old ports.old rerouters.new bus_wires.new ports.new result.bus × (result.groups ≡ laid_groups b ps) }
{
    let laid = lay_lanes(
        s, facts, groups, taps, demands, keys, marks, rerouters, bus_wires,
    );
    let count = laid.count;
    let u = settle_ports(&bus_wires[..count.wires], ports, 0);
    BusLaid {
        bus: BusCounts {
            rerouters: count.rerouters,
            bus_wires: count.wires,
            ports: u,
        },
        groups: laid.groups,
    }
}
