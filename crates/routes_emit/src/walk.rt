// The second pass of `lay_bus` (`emit_lane`): heads, source rerouters, links, taps, gate-sides and deliveries, tap by tap in the order of laying, each tap by
// the answers to what it asked for.
ghost use Rattle.std.specs.Prelude.{◌≡◌, List, [], ℕ, ◌+◌, ◌*◌, ◌<◌, ◌≤◌, length, get_or};
ghost use Rattle.board.specs.Board.{Board};
ghost use Rattle.board.specs.Groups.{Tap as LaidTap};
ghost use Rattle.board.specs.Demands.{PageLanes};
ghost use Rattle.base.specs.Views.{view};
ghost use Rattle.board.specs.Tables.{tap_in};
ghost use Rattle.routes.specs.Tables.{stop_in};
ghost use Rattle.routes.specs.Holding.{BusHeld, stop_level_of};
ghost use Rattle.routes_taps.specs.Asking.{told_in, tap_by, emit_by};
ghost use Rattle.routes_taps.specs.Taps.{LaneInRange, NextInRange, WentOn, Tables, TapOn, LaidInRange};
ghost use Rattle.routes_emit.specs.Emitting.{AnswersRoom, Ready, Spends, Becomes, start_of, RoomForTaps};

use crate::answers::answers_at;
use crate::chain::Emission;
use crate::tap::emit_tap;
use base::ids::NodeId;
use base::rows::{BusWireRow, RerouterRow, WorkRow};
use board::sections::Sections;
use routes::bus::{BusCount, End, Feed};
use routes::laid::Laid;
use routes::news::news_at;
use routes_taps::taps::{Reached, START, Tap, lane_of, reach};

// What the walk over the taps has come to.
#[derive(Clone, Copy)]
pub struct Walk {
    pub emission: Emission,
    pub reached: Reached,
}

// The k-th tap.
fn emit_next(
    w: &mut Walk,
    s: Sections<'_>,
    laid: Laid<'_>,
    k: usize,
    stops: &[WorkRow],
    asked: &[WorkRow],
    flags: &[u8],
    rerouters: &mut [RerouterRow],
    bus_wires: &mut [BusWireRow],
)
    requires ready { Ready 5 6 rerouters.old bus_wires.old w.old.emission }
    requires lane_in_range { LaneInRange s.pages.now s.nodes.now s.wires.now laid.facts.now laid.groups.now (get_or (get_or laid.taps.now k []) 0 0) (get_or (get_or laid.taps.now k []) 1 0) }
    requires next_in_range { NextInRange laid.taps.now k stops.now w.old.reached }
    requires answers_room { AnswersRoom asked.now flags.now (length s.nodes.now) k }
    ensures spends { Spends 5 6 rerouters.old bus_wires.old w.old.emission rerouters.new bus_wires.new w.new.emission }
    ensures went_on { WentOn laid.entry.taps.now k stops.now w.old.reached w.new.reached }
    ensures becomes { (b : Board) (ts : List LaidTap) (ps : List PageLanes) → Tables b ts ps s.entry.pages.now s.entry.nodes.now s.entry.wires.now laid.entry.facts.now laid.entry.groups.now → TapOn b ts (get_or laid.entry.taps.now k [])
        → Becomes (λ e. tap_by b ts ps (told_in asked.now flags.now (length s.entry.nodes.now) k) e (view tap_in laid.entry.taps.now k) (tap_in (get_or laid.entry.taps.now k [])) (stop_level_of w.new.reached.level)) rerouters.old bus_wires.old w.old.emission rerouters.new bus_wires.new w.new.emission }
{
    let t = Tap::from(laid.taps[k]);
    let l = lane_of(s, laid, t.page, t.group);
    let news = news_at(laid.taps, k);
    let answers = answers_at(asked, flags, s.nodes.len(), k);
    let reached = reach(stops, w.reached, news.begins_row());
    w.reached = reached;
    emit_tap(
        &mut w.emission,
        rerouters,
        bus_wires,
        l,
        t,
        news,
        reached.level,
        answers,
    );
}

// The walk before the first tap.
// Stays (no plainer): the rules' own emission begins with a feed that nothing hangs on, since a group sets it before anything is hung there.
fn start() -> Walk
    ensures { result ≡ start_of }
{
    let port = Feed {
        end: End::Port {
            node: NodeId(0),
            port: 0,
        },
        depth: 0,
    };
    let e = Emission {
        count: BusCount {
            rerouters: 0,
            wires: 0,
        },
        upstream: port,
        stop_tap: port,
        row_end: port,
    };
    Walk {
        emission: e,
        reached: START,
    }
}

// The lanes of all laid taps, in the order of laying.
// Stays (no plainer): a tap is compared with the one before it, and its answers stand at its place in two other tables, so the taps go by their places.
pub fn emit_lanes(
    s: Sections<'_>,
    laid: Laid<'_>,
    stops: &[WorkRow],
    asked: &[WorkRow],
    flags: &[u8],
    rerouters: &mut [RerouterRow],
    bus_wires: &mut [BusWireRow],
) -> BusCount
    requires laid_in_range { LaidInRange s.pages.now s.nodes.now s.wires.now laid.facts.now laid.groups.now laid.taps.now (length laid.taps.now) stops.now (length stops.now) }
    requires room_for_taps { RoomForTaps (length laid.taps.now) rerouters.old bus_wires.old }
    requires answered { (length laid.taps.now ≤ length asked.now) × (length s.nodes.now + 2 * length laid.taps.now ≤ length flags.now) }
    ensures { (b : Board) (ts : List LaidTap) (ps : List PageLanes) → Tables b ts ps s.entry.pages.now s.entry.nodes.now s.entry.wires.now laid.entry.facts.now laid.entry.groups.now → ((k : ℕ) → k < length laid.entry.taps.now → TapOn b ts (get_or laid.entry.taps.now k []))
        → BusHeld (emit_by b ts ps (told_in asked.now flags.now (length s.entry.nodes.now)) (view tap_in laid.entry.taps.now (length laid.entry.taps.now)) (view stop_in stops.now (length stops.now))).bus rerouters.old bus_wires.old rerouters.new bus_wires.new result }
{
    let mut w = start();
    for k in 0..laid.taps.len() {
        emit_next(
            &mut w, s, laid, k, stops, asked, flags, rerouters, bus_wires,
        );
    }
    w.emission.count
}
