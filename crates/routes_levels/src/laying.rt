// Stops: the first pass of `lay_bus`, which lays a stop for each row of each group, with its level.
ghost use Rattle.std.specs.Prelude.{◌≡◌, List, [], ◌∷◌, suc, ◌<◌, ◌≤◌, ◌+◌, ◌-◌, length, get_or};
ghost use Rattle.base.specs.Lists.{Found};
ghost use Rattle.base.specs.Growing.{run_in, Growing};
ghost use Rattle.board.specs.Board.{Board, field};
ghost use Rattle.board.specs.Index.{found_of};
ghost use Rattle.board.specs.Rows.{row_top};
ghost use Rattle.board.specs.Demands.{PageLanes};
ghost use Rattle.base.specs.Views.{view};
ghost use Rattle.board.specs.Tables.{tap_in};
ghost use Rattle.routes.specs.Stops.{new_row, stop_x};
ghost use Rattle.routes.specs.Levels.{Level as StopsLevel, Stop, level_with_base, level_of, stop_for, stops_of};
ghost use Rattle.routes.specs.Tables.{stop_in};
ghost use Rattle.routes_levels.specs.Laying.{stop_answer, kept_end, Ends, StopIndex, LaidFits, LaidFacts, WIRES_MOST, ROWS_MOST, LANES_MOST};
ghost use Rattle.routes_levels.specs.Pages.{KEYS, lane_key, levels_on, claims_on, NoneFrom, PageRuns, StopLaid, RoomFor, Wide, Used, OnePage};

use crate::levels::is_near;
use crate::pages::{KEYS, LevelRuns, count_taps, page_end};
use crate::stops::group_of;
use base::rows::WorkRow;
use base::runs::sum_up;
use routes::laid::Laid;
use routes::levels::Level;
use routes::news::news_at;

// The most wires, and so the most groups.
pub const WIRES_MOST: usize = 8_192;

// The last stops of a group: the x of the last one, and the last one that was kept.
#[derive(Clone, Copy, Default)]
pub struct GroupEnd {
    pub previous: Option<u32>,
    pub kept: Option<KeptStop>,
}

// A kept stop: its base and its level.
#[derive(Clone, Copy)]
pub struct KeptStop {
    pub base: u32,
    pub level: u32,
}

// T4: a stop's base, by the previous stop's.
fn stop_x(previous: Option<u32>, x: u32) -> u32
    ensures { (f : Found) → previous ≡ found_of f → result ≡ stop_x f x }
{
    match previous {
        Some(p) if is_near(x, p) => p,
        _ => x,
    }
}

// The level of a stop at `base`: that of the group's last kept stop where that has this base, else one that the finder gives.
fn level_of(runs: &LevelRuns, end: GroupEnd, tap: WorkRow, lane: u32, base: u32, top: u32) -> Level
    requires growing { Growing KEYS runs.now.starts runs.now.nexts runs.now.xs }
    requires tap_bound { ((tap_in tap).row < ROWS_MOST) × (lane < LANES_MOST) }
    ensures { (b : Board) (ss : List Stop) → run_in runs.now.starts runs.now.nexts runs.now.xs (tap_in tap).row ≡ levels_on ss (tap_in tap).page (tap_in tap).row
        → run_in runs.now.starts runs.now.nexts runs.now.xs (lane_key lane) ≡ claims_on ss (tap_in tap).page lane
        → level_with_base ss (tap_in tap).group base ≡ kept_end end base → top ≡ row_top b (tap_in tap).page (tap_in tap).row
        → result ≡ stop_answer (level_of b ss lane base (tap_in tap)) }
{
    if let Some(kept) = end.kept {
        if kept.base == base {
            return Level::Shared(kept.level);
        }
    }
    // Stays (no plainer): the match names both levels side by side.
    match runs.find(tap[2], lane, base, top) {
        Some(level) => Level::Own(level),
        None => Level::Dropped,
    }
}

// A stop's row.
fn stop_row(tap: WorkRow, lane: u32, base: u32, level: Level) -> WorkRow
    ensures { (v : StopsLevel) → level ≡ stop_answer v
        → stop_in result ≡ record { page = (tap_in tap).page; lane = lane; group = (tap_in tap).group; row = (tap_in tap).row; base = base; level = v } }
{
    let [l, kind] = <[u32; 2]>::from(level);
    [tap[0], lane, tap[1], tap[2], base, l, kind, 0]
}

// Group `g` has a stop more, the last one from here on.
fn note_end(ends: &mut [GroupEnd], g: usize, base: u32, level: Level)
    requires { g < length ends.old }
    ensures { (ss : List Stop) (s : Stop) → s.group ≡ g → s.base ≡ base → level ≡ stop_answer s.level
        → Ends ends.old ss → Ends ends.new (s ∷ ss) }
{
    let kept = level.kept().map(|l| KeptStop { base, level: l });
    ends[g] = GroupEnd {
        previous: Some(base),
        kept: kept.or(ends[g].kept),
    };
}

// Lays the stop of a tap that is the first of its group on its row, in a lane and under a row's top: one more of `s` stops.
// Stays (no plainer): stops, ends, runs and their count go side by side, and what holds of them is named (`StopIndex`, `PageRuns`). Of a struct that lends the
// stops on a contract tells what is left by nested pairs, and a struct of the ends and the count alone would part the count from the stops that it counts.
fn lay_stop(
    tap: WorkRow,
    lane: u32,
    top: u32,
    stops: &mut [WorkRow],
    ends: &mut [GroupEnd],
    runs: &mut LevelRuns,
    s: usize,
)
    requires stop_index { StopIndex (s + 1) stops.old ends.old s × ((tap_in tap).group < WIRES_MOST) }
    requires page_runs { PageRuns (tap_in tap).page (view stop_in stops.old s) runs.old.starts runs.old.nexts runs.old.xs × RoomFor (tap_in tap).row lane runs.old.starts runs.old.nexts }
    ensures starts_kept { runs.new.starts ≡ runs.old.starts }
    ensures stop_laid { StopLaid (tap_in tap).page (tap_in tap).row lane stops.new ends.new runs.old.starts runs.old.nexts runs.new.nexts runs.new.xs (s + 1) }
    ensures s_after { (b : Board) → top ≡ row_top b (tap_in tap).page (tap_in tap).row
        → view stop_in stops.new (s + 1) ≡ (stop_for b (view stop_in stops.old s) lane (tap_in tap) ∷ view stop_in stops.old s) }
{
    let g = group_of(tap);
    let end = ends[g];
    let base = stop_x(end.previous, tap[4]);
    let level = level_of(runs, end, tap, lane, base, top);
    stops[s] = stop_row(tap, lane, base, level);
    note_end(ends, g, base, level);
    runs.keep(tap[2], lane, level);
}

// Lays the stop of the tap in row `k`, where it is the first of its group on its row: how many stops there are then.
fn lay_tap(
    laid: Laid<'_>,
    k: usize,
    stops: &mut [WorkRow],
    ends: &mut [GroupEnd],
    runs: &mut LevelRuns,
    s: usize,
) -> usize
    requires laid_fits { LaidFits laid.facts.now laid.groups.now laid.taps.now (k + 1) }
    requires stop_index { StopIndex (k + 1) stops.old ends.old s × (s ≤ k) }
    requires page_runs { PageRuns (field laid.taps.now k 0) (view stop_in stops.old s) runs.old.starts runs.old.nexts runs.old.xs × RoomFor (field laid.taps.now k 2) (field laid.groups.now (field laid.taps.now k 1) 4) runs.old.starts runs.old.nexts }
    ensures starts_kept { runs.new.starts ≡ runs.old.starts }
    ensures stop_laid { StopLaid (field laid.entry.taps.now k 0) (field laid.entry.taps.now k 2) (field laid.entry.groups.now (field laid.entry.taps.now k 1) 4) stops.new ends.new runs.old.starts runs.old.nexts runs.new.nexts runs.new.xs result }
    ensures upper_bound { (result ≤ k + 1) × ((b : Board) (ps : List PageLanes)
        → LaidFacts b ps laid.entry.facts.now laid.entry.groups.now laid.entry.taps.now (k + 1)
        → view stop_in stops.old s ≡ stops_of b ps (view tap_in laid.entry.taps.now k)
        → view stop_in stops.new result ≡ stops_of b ps (view tap_in laid.entry.taps.now (k + 1))) }
{
    if !news_at(laid.taps, k).begins_row() {
        return s;
    }
    let tap = laid.taps[k];
    let g = group_of(tap);
    let w = tap[7] as usize;
    let target = laid.facts[w][3] as usize;
    lay_stop(
        tap,
        laid.groups[g][4],
        laid.facts[target][1],
        stops,
        ends,
        runs,
        s,
    );
    s + 1
}

// Lays the stops of the taps from the a-th up to the e-th, which are those of a page.
fn fill_page(
    laid: Laid<'_>,
    a: usize,
    e: usize,
    stops: &mut [WorkRow],
    ends: &mut [GroupEnd],
    runs: &mut LevelRuns,
    s: usize,
) -> usize
    requires laid_fits { LaidFits laid.facts.now laid.groups.now laid.taps.now e × OnePage laid.taps.now a e × (a ≤ e) }
    requires stop_index { StopIndex e stops.old ends.old s × (s ≤ a) }
    requires page_runs { PageRuns (field laid.taps.now a 0) (view stop_in stops.old s) runs.old.starts runs.old.nexts runs.old.xs }
    requires wide { Wide laid.groups.now laid.taps.now a (e - a) runs.old.starts × Used laid.groups.now laid.taps.now a 0 runs.old.starts runs.old.nexts }
    ensures stop_index_2 { StopIndex e stops.new ends.new result × NoneFrom (suc (field laid.entry.taps.now a 0)) (view stop_in stops.new result) }
    ensures upper_bound { (result ≤ e) × ((b : Board) (ps : List PageLanes)
        → LaidFacts b ps laid.entry.facts.now laid.entry.groups.now laid.entry.taps.now e
        → view stop_in stops.old s ≡ stops_of b ps (view tap_in laid.entry.taps.now a)
        → view stop_in stops.new result ≡ stops_of b ps (view tap_in laid.entry.taps.now e)) }
{
    let mut count = s;
    // Stays (no plainer): a tap is compared with the one before it, so it goes by its place.
    for k in a..e {
        count = lay_tap(laid, k, stops, ends, runs, count);
    }
    count
}

// Lays the stops of a page: its taps are counted by row and by lane, and the runs start empty.
fn lay_page(
    laid: Laid<'_>,
    a: usize,
    e: usize,
    stops: &mut [WorkRow],
    ends: &mut [GroupEnd],
    s: usize,
) -> usize
    requires laid_fits { LaidFits laid.facts.now laid.groups.now laid.taps.now e × OnePage laid.taps.now a e × (a ≤ e) }
    requires stop_index { StopIndex e stops.old ends.old s × (s ≤ a) }
    requires none_from { NoneFrom (field laid.taps.now a 0) (view stop_in stops.old s) }
    ensures stop_index_2 { StopIndex e stops.new ends.new result × NoneFrom (suc (field laid.entry.taps.now a 0)) (view stop_in stops.new result) }
    ensures upper_bound { (result ≤ e) × ((b : Board) (ps : List PageLanes)
        → LaidFacts b ps laid.entry.facts.now laid.entry.groups.now laid.entry.taps.now e
        → view stop_in stops.old s ≡ stops_of b ps (view tap_in laid.entry.taps.now a)
        → view stop_in stops.new result ≡ stops_of b ps (view tap_in laid.entry.taps.now e)) }
{
    let mut runs = LevelRuns {
        starts: [0u32; KEYS + 1],
        nexts: [0u32; KEYS + 1],
        xs: [0u32; 2 * WIRES_MOST],
    };
    count_taps(laid, a, e, &mut runs.starts);
    sum_up(&mut runs.starts);
    runs.nexts = runs.starts;
    fill_page(laid, a, e, stops, ends, &mut runs, s)
}

// Lays the stops of the laid taps, page by page.
fn fill_stops(laid: Laid<'_>, stops: &mut [WorkRow], ends: &mut [GroupEnd]) -> usize
    requires { LaidFits laid.facts.now laid.groups.now laid.taps.now (length laid.taps.now) × StopIndex (length laid.taps.now) stops.old ends.old 0 }
    ensures { (result ≤ length laid.entry.taps.now) × ((b : Board) (ps : List PageLanes)
        → LaidFacts b ps laid.entry.facts.now laid.entry.groups.now laid.entry.taps.now (length laid.entry.taps.now)
        → view stop_in stops.new result ≡ stops_of b ps (view tap_in laid.entry.taps.now (length laid.entry.taps.now))) }
{
    let mut count: usize = 0;
    let mut k: usize = 0;
    // Stays (no plainer): it goes from page to page.
    while k < laid.taps.len() {
        let e = page_end(laid.taps, k);
        count = lay_page(laid, k, e, stops, ends, count);
        k = e;
    }
    count
}

// The first pass of `lay_bus`: the stops of the laid taps in the first rows of `stops`, one for each row of each group, with their levels. How many there are.
pub fn lane_stops(laid: Laid<'_>, stops: &mut [WorkRow]) -> usize
    requires { LaidFits laid.facts.now laid.groups.now laid.taps.now (length laid.taps.now) × (length laid.taps.now ≤ length stops.old) }
    ensures { (result ≤ length laid.entry.taps.now) × ((b : Board) (ps : List PageLanes)
        → LaidFacts b ps laid.entry.facts.now laid.entry.groups.now laid.entry.taps.now (length laid.entry.taps.now)
        → view stop_in stops.new result ≡ stops_of b ps (view tap_in laid.entry.taps.now (length laid.entry.taps.now))) }
{
    let mut ends = [GroupEnd::default(); WIRES_MOST];
    fill_stops(laid, stops, &mut ends)
}
