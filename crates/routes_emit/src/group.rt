// A group begins: its port, its head, and the source rerouter just before the head.
ghost use Rattle.std.specs.Prelude.{List};
ghost use Rattle.board.specs.Board.{Board};
ghost use Rattle.board.specs.Groups.{Tap as LaidTap};
ghost use Rattle.board.specs.Demands.{PageLanes};
ghost use Rattle.routes_taps.specs.Asking.{source_by, group_by};
ghost use Rattle.routes_taps.specs.Taps.{LaneOf, LaneRanges};
ghost use Rattle.routes_emit.specs.Emitting.{Ready, Spends, Becomes, told};

use crate::answers::Answers;
use crate::chain::{Emission, lane_rerouter, row_rerouter};
use base::rows::{BusWireRow, RerouterRow};
use routes::bus::{End, Feed, Part, Role, Rotation};
use routes_taps::taps::{Lane, TAP_RESERVE};

// R6: a source rerouter in the source's row, where its answer says so.
fn with_source(
    e: &mut Emission,
    rerouters: &mut [RerouterRow],
    bus_wires: &mut [BusWireRow],
    l: Lane,
    answers: Answers,
)
    requires ready { Ready 1 1 rerouters.old bus_wires.old e.old }
    requires lane_ranges { LaneRanges l }
    ensures spends { Spends 1 1 rerouters.old bus_wires.old e.old rerouters.new bus_wires.new e.new }
    ensures becomes { (b : Board) (ts : List LaidTap) (ps : List PageLanes) (t : LaidTap) → LaneOf b ts ps t l → Becomes (λ s. source_by b ts ps answers.source s t) rerouters.old bus_wires.old e.old rerouters.new bus_wires.new e.new }
{
    if answers.source {
        let new = row_rerouter(
            l,
            l.source_row,
            l.source_x,
            l.source_y - TAP_RESERVE,
            Rotation::Deg180,
            Role::Source,
            Part::Source,
        );
        e.hang_on(rerouters, bus_wires, new);
    }
}

// R5: a group begins at its port, with a head at the source's x where its answer says so.
pub(crate) fn start_group(
    e: &mut Emission,
    rerouters: &mut [RerouterRow],
    bus_wires: &mut [BusWireRow],
    l: Lane,
    answers: Answers,
)
    requires ready { Ready 2 2 rerouters.old bus_wires.old e.old }
    requires lane_ranges { LaneRanges l }
    ensures spends { Spends 2 2 rerouters.old bus_wires.old e.old rerouters.new bus_wires.new e.new }
    ensures becomes { (b : Board) (ts : List LaidTap) (ps : List PageLanes) (t : LaidTap) → LaneOf b ts ps t l → Becomes (λ s. group_by b ts ps (told answers) s t) rerouters.old bus_wires.old e.old rerouters.new bus_wires.new e.new }
{
    e.upstream = Feed {
        end: End::Port {
            node: l.node,
            port: l.port,
        },
        depth: 0,
    };
    if answers.head {
        with_source(e, rerouters, bus_wires, l, answers);
        let new = lane_rerouter(l, l.source_x, l.rotation, Part::Head);
        e.hang_on(rerouters, bus_wires, new);
    }
}
