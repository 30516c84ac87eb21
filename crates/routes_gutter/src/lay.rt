// Lays the lanes of a planned board: its taps in the order of laying, their stops with levels, and then rerouters and bus wires.
ghost use Rattle.std.specs.Prelude.{◌≡◌, List, length};
ghost use Rattle.board.specs.Board.{Board};
ghost use Rattle.board.specs.Demands.{PageLanes};
ghost use Rattle.base.specs.Views.{view};
ghost use Rattle.board.specs.Tables.{tap_in};
ghost use Rattle.routes.specs.Plan.{bus_of, group_count, laid_groups};
ghost use Rattle.routes.specs.Holding.{BusHeld};
ghost use Rattle.routes_gutter.specs.Lay.{LanesReady, LayingRoom, LaidReady};

use base::rows::{BusWireRow, RerouterRow, WorkRow};
use board::sections::Sections;
use routes::bus::BusCount;
use routes::laid::Laid;
use routes::news::news_at;
use routes_beside::beside::answer_rows;
use routes_columns::columns::ask_taps;
use routes_emit::walk::emit_lanes;
use routes_levels::laying::lane_stops;
use routes_levels::stops::lay_taps;
use routes_rows::book::CELLS_MOST;

// How many rows of the buffers are written, and how many groups are laid.
#[derive(Clone, Copy)]
pub struct LanesLaid {
    pub count: BusCount,
    pub groups: usize,
}

// The rerouters and bus wires of the laid taps: the columns are asked for first, then the rows, and what stands by the answers is written. The taps give way to
// the questions, the marks to a row's items.
fn emit_laid(
    s: Sections<'_>,
    laid: Laid<'_>,
    stops: &[WorkRow],
    asked: &mut [WorkRow],
    marks: &mut [WorkRow],
    rerouters: &mut [RerouterRow],
    bus_wires: &mut [BusWireRow],
) -> BusCount
    requires { (b : Board) × (ps : List PageLanes) × LaidReady b ps s.pages.now s.nodes.now s.wires.now laid.facts.now laid.groups.now asked.old laid.taps.now stops.now marks.old rerouters.old bus_wires.old }
    ensures { (b : Board) (ps : List PageLanes) → LaidReady b ps s.entry.pages.now s.entry.nodes.now s.entry.wires.now laid.entry.facts.now laid.entry.groups.now asked.old laid.entry.taps.now stops.now marks.old rerouters.old bus_wires.old
        → BusHeld (bus_of b ps) rerouters.old bus_wires.old rerouters.new bus_wires.new result }
{
    ask_taps(s, laid, stops, asked);
    // Stays (no plainer): a flag is 0 or 1, as the answers of columns are in the lent rows, and both are read with one test.
    let mut flags = [0u8; CELLS_MOST];
    answer_rows(s.nodes, laid, asked, marks, &mut flags);
    emit_lanes(s, laid, stops, asked, &flags, rerouters, bus_wires)
}

// How many groups the laid taps are of: a group's taps follow one another.
// Stays (no plainer): a tap is compared with the one before it, so the taps go by their places and are no elements to count.
fn count_groups(taps: &[WorkRow]) -> usize
    ensures { result ≡ group_count (view tap_in taps.now (length taps.now)) }
{
    let mut count: usize = 0;
    for k in 0..taps.len() {
        if news_at(taps, k).begins_group() {
            count += 1;
        }
    }
    count
}

// What `lay_bus` lays for the lanes of a planned board. The marks serve the sort of the taps first.
pub fn lay_lanes(
    s: Sections<'_>,
    facts: &[WorkRow],
    groups: &[WorkRow],
    taps: &mut [WorkRow],
    laid: &mut [WorkRow],
    stops: &mut [WorkRow],
    marks: &mut [WorkRow],
    rerouters: &mut [RerouterRow],
    bus_wires: &mut [BusWireRow],
) -> LanesLaid
    requires { (b : Board) × (ps : List PageLanes) × LanesReady b ps s.pages.now s.nodes.now s.wires.now facts.now groups.now taps.old rerouters.old bus_wires.old × LayingRoom s.nodes.now s.wires.now laid.old stops.old marks.old }
    ensures { (b : Board) (ps : List PageLanes) → LanesReady b ps s.entry.pages.now s.entry.nodes.now s.entry.wires.now facts.now groups.now taps.old rerouters.old bus_wires.old
        → BusHeld (bus_of b ps) rerouters.old bus_wires.old rerouters.new bus_wires.new result.count × (result.groups ≡ laid_groups b ps) }
{
    let n = lay_taps(s.nodes, facts, groups, taps, laid, marks);
    let laid = Laid {
        facts,
        groups,
        taps: &laid[..n],
    };
    let stop_count = lane_stops(laid, stops);
    let stops = &stops[..stop_count];
    let count = emit_laid(s, laid, stops, taps, marks, rerouters, bus_wires);
    LanesLaid {
        count,
        groups: count_groups(laid.taps),
    }
}
