// A tap is served: a gate-side rerouter where there is to be one, then the delivery.
ghost use Rattle.std.specs.Prelude.{List, ◌<◌, length};
ghost use Rattle.board.specs.Board.{Board};
ghost use Rattle.board.specs.Groups.{Tap as LaidTap};
ghost use Rattle.board.specs.Demands.{PageLanes};
ghost use Rattle.routes_taps.specs.Asking.{serve_by};
ghost use Rattle.routes_taps.specs.Taps.{LaneOf, tap_of, TapRanges, TapTarget};
ghost use Rattle.routes_emit.specs.Emitting.{Ready, Spends, Becomes, Delivered, told, gate_side_by};

use crate::answers::Answers;
use crate::chain::{Emission, row_rerouter};
use base::ids::NodeId;
use base::rows::{BusWireRow, RerouterRow};
use routes::bus::{Part, Role, Rotation, push_delivery};
use routes_taps::taps::{Lane, TAP_RESERVE, Tap};

// R10: a gate-side rerouter, where its answer says so.
fn with_gate_side(
    e: &mut Emission,
    rerouters: &mut [RerouterRow],
    bus_wires: &mut [BusWireRow],
    l: Lane,
    t: Tap,
    level: u32,
    answers: Answers,
)
    requires ready { Ready 1 1 rerouters.old bus_wires.old e.old }
    requires tap_ranges { TapRanges t }
    ensures spends { Spends 1 1 rerouters.old bus_wires.old e.old rerouters.new bus_wires.new e.new }
    ensures becomes { (b : Board) (ts : List LaidTap) (ps : List PageLanes) → LaneOf b ts ps (tap_of t) l → Becomes (λ s. gate_side_by b ts ps answers.gate_side s (tap_of t) level) rerouters.old bus_wires.old e.old rerouters.new bus_wires.new e.new }
{
    if answers.gate_side {
        let new = row_rerouter(
            l,
            Some(t.row),
            level,
            t.y - TAP_RESERVE,
            Rotation::Deg0,
            Role::Gutter,
            Part::GateSide,
        );
        e.chain_on(rerouters, bus_wires, new);
    }
}

// R11: a delivery, from the end of the row's chain.
fn deliver(e: &mut Emission, bus_wires: &mut [BusWireRow], t: Tap)
    requires { e.old.count.wires < length bus_wires.old }
    ensures { Delivered bus_wires.old e.old t bus_wires.new e.new }
{
    e.count = push_delivery(
        bus_wires,
        e.count,
        e.row_end,
        NodeId(t.node),
        t.port,
        t.wire,
    );
}

// A tap served: its gate-side rerouter first.
pub(crate) fn serve(
    e: &mut Emission,
    rerouters: &mut [RerouterRow],
    bus_wires: &mut [BusWireRow],
    l: Lane,
    t: Tap,
    level: u32,
    answers: Answers,
)
    requires ready { Ready 1 2 rerouters.old bus_wires.old e.old }
    requires tap_ranges { TapRanges t }
    ensures spends { Spends 1 2 rerouters.old bus_wires.old e.old rerouters.new bus_wires.new e.new }
    ensures becomes { (b : Board) (ts : List LaidTap) (ps : List PageLanes) → LaneOf b ts ps (tap_of t) l → TapTarget b t → Becomes (λ s. serve_by b ts ps (told answers) s (tap_of t) level) rerouters.old bus_wires.old e.old rerouters.new bus_wires.new e.new }
{
    with_gate_side(e, rerouters, bus_wires, l, t, level, answers);
    deliver(e, bus_wires, t);
}
