// A row begins: the link and the tap of its stop, or the tap that it shares.
ghost use Rattle.std.specs.Prelude.{List, ◌<◌};
ghost use Rattle.board.specs.Board.{Board};
ghost use Rattle.board.specs.Groups.{Tap as LaidTap};
ghost use Rattle.board.specs.Demands.{PageLanes};
ghost use Rattle.routes.specs.Holding.{stop_level_of};
ghost use Rattle.routes_taps.specs.Asking.{link_by, row_by};
ghost use Rattle.routes_taps.specs.Taps.{LaneOf, LevelRange};
ghost use Rattle.routes_emit.specs.Emitting.{Ready, Spends, Becomes, told};

use crate::answers::Answers;
use crate::chain::{Emission, lane_rerouter};
use base::numbers::REROUTER_SIZE;
use base::rows::{BusWireRow, RerouterRow};
use routes::bus::{Part, Rotation};
use routes::levels::Level;
use routes_taps::taps::Lane;

// R8: a link, where its answer says so.
fn with_link(
    e: &mut Emission,
    rerouters: &mut [RerouterRow],
    bus_wires: &mut [BusWireRow],
    l: Lane,
    level: u32,
    answers: Answers,
)
    requires ready { Ready 1 1 rerouters.old bus_wires.old e.old }
    requires level_bound { level < 4294967290 }
    ensures spends { Spends 1 1 rerouters.old bus_wires.old e.old rerouters.new bus_wires.new e.new }
    ensures becomes { (b : Board) (ts : List LaidTap) (ps : List PageLanes) (t : LaidTap) → LaneOf b ts ps t l → Becomes (λ s. link_by b ts ps answers.link s t level) rerouters.old bus_wires.old e.old rerouters.new bus_wires.new e.new }
{
    if answers.link {
        let new = lane_rerouter(l, level + REROUTER_SIZE, l.rotation, Part::Link);
        e.hang_on(rerouters, bus_wires, new);
    }
}

// R7: a level of its own has a link and a tap; one taken over goes by the tap of the stop it was taken from.
pub(crate) fn start_row(
    e: &mut Emission,
    rerouters: &mut [RerouterRow],
    bus_wires: &mut [BusWireRow],
    l: Lane,
    level: Level,
    answers: Answers,
)
    requires ready { Ready 2 2 rerouters.old bus_wires.old e.old }
    requires level_range { LevelRange level }
    ensures spends { Spends 2 2 rerouters.old bus_wires.old e.old rerouters.new bus_wires.new e.new }
    ensures becomes { (b : Board) (ts : List LaidTap) (ps : List PageLanes) (t : LaidTap) → LaneOf b ts ps t l → Becomes (λ s. row_by b ts ps (told answers) s t (stop_level_of level)) rerouters.old bus_wires.old e.old rerouters.new bus_wires.new e.new }
{
    match level {
        Level::Dropped => {}
        Level::Shared(_) => e.row_end = e.stop_tap,
        Level::Own(x) => {
            with_link(e, rerouters, bus_wires, l, x, answers);
            let new = lane_rerouter(l, x, Rotation::Deg0, Part::Tap);
            e.tap_off(rerouters, bus_wires, new);
        }
    }
}
