// One tap: the group and the row that begin with it, then its gate-side rerouter and its delivery.
ghost use Rattle.std.specs.Prelude.{List};
ghost use Rattle.board.specs.Board.{Board};
ghost use Rattle.board.specs.Groups.{Tap as LaidTap};
ghost use Rattle.board.specs.Demands.{PageLanes};
ghost use Rattle.routes.specs.Holding.{stop_level_of};
ghost use Rattle.routes_taps.specs.Taps.{LaneOf, LaneRanges, tap_of, LevelRange, TapRanges, TapTarget};
ghost use Rattle.routes_emit.specs.Emitting.{Ready, Spends, Becomes, told, begin_group, begin_tap, tap_emitted};

use crate::answers::Answers;
use crate::chain::Emission;
use crate::group::start_group;
use crate::row::start_row;
use crate::serve::serve;
use base::rows::{BusWireRow, RerouterRow};
use routes::levels::Level;
use routes::news::News;
use routes_taps::taps::{Lane, Tap};

// A new group begins, where the tap is its first.
// Stays (no plainer): a step takes of what is read of a tap only what it goes by, and its contract speaks of no more; a struct of the lane and the answers,
// which most steps take, would stand before each of its parts in every contract.
fn with_group(
    e: &mut Emission,
    rerouters: &mut [RerouterRow],
    bus_wires: &mut [BusWireRow],
    l: Lane,
    news: News,
    answers: Answers,
)
    requires ready { Ready 2 2 rerouters.old bus_wires.old e.old }
    requires lane_ranges { LaneRanges l }
    ensures spends { Spends 2 2 rerouters.old bus_wires.old e.old rerouters.new bus_wires.new e.new }
    ensures becomes { (b : Board) (ts : List LaidTap) (ps : List PageLanes) (t : LaidTap) → LaneOf b ts ps t l → Becomes (begin_group b ts ps (told answers) t news) rerouters.old bus_wires.old e.old rerouters.new bus_wires.new e.new }
{
    if news.begins_group() {
        start_group(e, rerouters, bus_wires, l, answers);
    }
}

// A new group and a new row begin before the tap is served.
fn begin(
    e: &mut Emission,
    rerouters: &mut [RerouterRow],
    bus_wires: &mut [BusWireRow],
    l: Lane,
    news: News,
    level: Level,
    answers: Answers,
)
    requires ready { Ready 4 4 rerouters.old bus_wires.old e.old }
    requires lane_ranges { LaneRanges l }
    requires level_range { LevelRange level }
    ensures spends { Spends 4 4 rerouters.old bus_wires.old e.old rerouters.new bus_wires.new e.new }
    ensures becomes { (b : Board) (ts : List LaidTap) (ps : List PageLanes) (t : LaidTap) → LaneOf b ts ps t l → Becomes (begin_tap b ts ps (told answers) t news (stop_level_of level)) rerouters.old bus_wires.old e.old rerouters.new bus_wires.new e.new }
{
    with_group(e, rerouters, bus_wires, l, news, answers);
    if news.begins_row() {
        start_row(e, rerouters, bus_wires, l, level, answers);
    }
}

// One tap: its group, its row, its gate-side rerouter, its delivery.
pub(crate) fn emit_tap(
    e: &mut Emission,
    rerouters: &mut [RerouterRow],
    bus_wires: &mut [BusWireRow],
    l: Lane,
    t: Tap,
    news: News,
    level: Level,
    answers: Answers,
)
    requires ready { Ready 5 6 rerouters.old bus_wires.old e.old }
    requires lane_ranges { LaneRanges l }
    requires tap_ranges { TapRanges t }
    requires level_range { LevelRange level }
    ensures spends { Spends 5 6 rerouters.old bus_wires.old e.old rerouters.new bus_wires.new e.new }
    ensures becomes { (b : Board) (ts : List LaidTap) (ps : List PageLanes) → LaneOf b ts ps (tap_of t) l → TapTarget b t → Becomes (tap_emitted b ts ps (told answers) (tap_of t) news (stop_level_of level)) rerouters.old bus_wires.old e.old rerouters.new bus_wires.new e.new }
{
    begin(e, rerouters, bus_wires, l, news, level, answers);
    match level {
        Level::Dropped => {}
        Level::Shared(x) | Level::Own(x) => serve(e, rerouters, bus_wires, l, t, x, answers),
    }
}
