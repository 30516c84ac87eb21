// Tap by tap: whether its head and its link are placed, and which rerouters it asks for beside rows.
ghost use Rattle.std.specs.Prelude.{◌≡◌, not, ◌&&◌, ◌+◌, eqb, List, [], ℕ, ◌<◌, ◌≤◌, length, get_or};
ghost use Rattle.sheet.specs.Table.{MISSING};
ghost use Rattle.board.specs.Board.{Board};
ghost use Rattle.board.specs.Rows.{REROUTER_SIZE};
ghost use Rattle.board.specs.Groups.{Tap as LaidTap};
ghost use Rattle.board.specs.Demands.{PageLanes};
ghost use Rattle.board.specs.Tables.{tap_in};
ghost use Rattle.base.specs.Views.{view};
ghost use Rattle.routes.specs.Levels.{is_own};
ghost use Rattle.routes.specs.News.{begins_group, begins_row};
ghost use Rattle.routes.specs.Tables.{stop_in};
ghost use Rattle.routes.specs.Holding.{stop_level_of};
ghost use Rattle.routes_taps.specs.Taps.{LaneInRange, LaneRanges, LevelRange, NextInRange, WentOn, Tables, TapOn, LaidInRange};
ghost use Rattle.routes_taps.specs.Asking.{served_at, QuestionsIn};
ghost use Rattle.routes_columns.specs.Columns.{lane_key, tap_key, TapKeyed, SamePlaces, ClaimRoom, Claiming, TwoMore, ClaimsHeld, TapAsked, NextAsked, row_in, AskRoom};

use crate::claims::{CLAIMS_MOST, ClaimRuns, STARTS, lane_key, make_room};
use base::numbers::{MISSING, REROUTER_SIZE};
use base::rows::WorkRow;
use board::sections::Sections;
use routes::laid::Laid;
use routes::levels::Level;
use routes::news::{News, news_at};
use routes_taps::taps::{Lane, Reached, START, TAP_RESERVE, Tap, lane_of, reach};

// Whether a tap's head and link are placed: each has its span in the lane's column claimed.
// Stays (no plainer): two questions, each with an answer of its own.
#[derive(Clone, Copy)]
pub struct Claimed {
    pub head: bool,
    pub link: bool,
}

// The level that a tap is served at.
fn served_at(level: Level) -> u32
    ensures { result ≡ served_at (stop_level_of level) }
{
    level.kept().unwrap_or(0)
}

// R5: a group's head, at its source's x.
fn ask_head(claims: &mut ClaimRuns, k: usize, l: Lane, news: News) -> bool
    requires { ClaimRoom 1 claims.old.starts claims.old.nexts claims.old.xs k }
    ensures same_places { SamePlaces claims.old claims.new }
    ensures claiming { Claiming claims.old.starts k l.source_x (begins_group news && not (eqb l.source_x MISSING)) claims.old.nexts claims.old.xs claims.new.nexts claims.new.xs result }
{
    news.begins_group() & (l.source_x != MISSING) && claims.claim_column(k, l.source_x)
}

// R8: a row's link, just above its tap.
fn ask_link(claims: &mut ClaimRuns, k: usize, news: News, level: Level) -> bool
    requires claim_room { ClaimRoom 1 claims.old.starts claims.old.nexts claims.old.xs k }
    requires level_range { LevelRange level }
    ensures same_places { SamePlaces claims.old claims.new }
    ensures claiming { Claiming claims.old.starts k (served_at (stop_level_of level) + REROUTER_SIZE) (begins_row news && is_own (stop_level_of level)) claims.old.nexts claims.old.xs claims.new.nexts claims.new.xs result }
{
    news.begins_row() & level.is_own() && claims.claim_column(k, served_at(level) + REROUTER_SIZE)
}

// The head first, then the link.
fn ask_tap(claims: &mut ClaimRuns, t: Tap, l: Lane, news: News, level: Level) -> Claimed
    requires page_bound { (t.page < 64) × (l.lane < 512) }
    requires claim_room { ClaimRoom 2 claims.old.starts claims.old.nexts claims.old.xs (lane_key t.page l.lane) }
    requires level_range { LevelRange level }
    ensures same_places { SamePlaces claims.old claims.new }
    ensures tap_asked { TapAsked t l news (stop_level_of level) claims.old.starts claims.old.nexts claims.old.xs claims.new.nexts claims.new.xs result }
{
    let k = lane_key(t.page, l.lane);
    let head = ask_head(claims, k, l, news);
    let link = ask_link(claims, k, news, level);
    Claimed { head, link }
}

// R6, R10: the row of a tap's questions.
// Stays (C interface): it is a row of the work space that is lent.
fn question_row(l: Lane, news: News, level: Level, placed: Claimed) -> WorkRow
    requires { LaneRanges l }
    ensures { result ≡ row_in l news (stop_level_of level) placed.head placed.link }
{
    let asks_source = placed.head & l.source_row.is_some();
    let asks_gate_side = news.begins_column() & level.kept().is_some();
    [
        u32::from(placed.head),
        u32::from(placed.link),
        u32::from(asks_source),
        u32::from(asks_gate_side),
        l.source_row.unwrap_or(MISSING),
        l.source_x,
        l.source_y - TAP_RESERVE,
        served_at(level),
    ]
}

// The k-th tap.
fn ask_next(
    s: Sections<'_>,
    laid: Laid<'_>,
    k: usize,
    stops: &[WorkRow],
    claims: &mut ClaimRuns,
    asked: &mut [WorkRow],
    old: Reached,
) -> Reached
    requires tap_keyed { TapKeyed laid.groups.now laid.taps.now k × ClaimRoom 2 claims.old.starts claims.old.nexts claims.old.xs (tap_key laid.groups.now laid.taps.now k) }
    requires lane_in_range { LaneInRange s.pages.now s.nodes.now s.wires.now laid.facts.now laid.groups.now (get_or (get_or laid.taps.now k []) 0 0) (get_or (get_or laid.taps.now k []) 1 0) }
    requires next_in_range { NextInRange laid.taps.now k stops.now old }
    requires k_in_bounds { k < length asked.old }
    ensures same_places { SamePlaces claims.old claims.new }
    ensures two_more { TwoMore (tap_key laid.entry.groups.now laid.entry.taps.now k) claims.old.nexts claims.new.nexts }
    ensures went_on { WentOn laid.entry.taps.now k stops.now old result }
    ensures next_asked { (b : Board) (ts : List LaidTap) (ps : List PageLanes) → Tables b ts ps s.entry.pages.now s.entry.nodes.now s.entry.wires.now laid.entry.facts.now laid.entry.groups.now → TapOn b ts (get_or laid.entry.taps.now k [])
        → NextAsked b ts ps (view tap_in laid.entry.taps.now k) (tap_in (get_or laid.entry.taps.now k [])) (stop_level_of result.level) k claims.old.starts claims.old.nexts claims.old.xs asked.old claims.new.nexts claims.new.xs asked.new }
{
    let t = Tap::from(laid.taps[k]);
    let l = lane_of(s, laid, t.page, t.group);
    let news = news_at(laid.taps, k);
    let reached = reach(stops, old, news.begins_row());
    let placed = ask_tap(claims, t, l, news, reached.level);
    asked[k] = question_row(l, news, reached.level, placed);
    reached
}

// All taps, with the claims of the stops in their runs.
// Stays (no plainer): a tap is compared with the one before it, so the walk goes by its place.
fn ask_all(
    s: Sections<'_>,
    laid: Laid<'_>,
    stops: &[WorkRow],
    claims: &mut ClaimRuns,
    asked: &mut [WorkRow],
)
    requires laid_in_range { LaidInRange s.pages.now s.nodes.now s.wires.now laid.facts.now laid.groups.now laid.taps.now (length laid.taps.now) stops.now (length stops.now) }
    requires ask_room { AskRoom (length s.pages.now) laid.groups.now laid.taps.now (length laid.taps.now) claims.old.starts claims.old.nexts claims.old.xs asked.old }
    requires claims_held { ClaimsHeld (length s.pages.now) (view stop_in stops.now (length stops.now)) claims.old.starts claims.old.nexts claims.old.xs }
    ensures { (b : Board) (ts : List LaidTap) (ps : List PageLanes) → Tables b ts ps s.entry.pages.now s.entry.nodes.now s.entry.wires.now laid.entry.facts.now laid.entry.groups.now → ((k : ℕ) → k < length laid.entry.taps.now → TapOn b ts (get_or laid.entry.taps.now k []))
        → QuestionsIn b ts ps (view stop_in stops.now (length stops.now)) asked.new (view tap_in laid.entry.taps.now (length laid.entry.taps.now)) (view stop_in stops.now (length stops.now)) }
{
    let mut reached = START;
    for k in 0..laid.taps.len() {
        reached = ask_next(s, laid, k, stops, claims, asked, reached);
    }
}

// What the taps ask, in order: a row for each.
pub fn ask_taps(s: Sections<'_>, laid: Laid<'_>, stops: &[WorkRow], asked: &mut [WorkRow])
    requires laid_in_range { LaidInRange s.pages.now s.nodes.now s.wires.now laid.facts.now laid.groups.now laid.taps.now (length laid.taps.now) stops.now (length stops.now) }
    requires few_stops { (length stops.now ≤ length laid.taps.now) × (length laid.taps.now ≤ 8192) × (length laid.taps.now ≤ length asked.old) × (length s.pages.now ≤ 64) × ((k : ℕ) → k < length laid.taps.now → get_or (get_or laid.groups.now (get_or (get_or laid.taps.now k []) 1 0) []) 4 0 < 512) }
    ensures { (b : Board) (ts : List LaidTap) (ps : List PageLanes) → Tables b ts ps s.entry.pages.now s.entry.nodes.now s.entry.wires.now laid.entry.facts.now laid.entry.groups.now → ((k : ℕ) → k < length laid.entry.taps.now → TapOn b ts (get_or laid.entry.taps.now k []))
        → QuestionsIn b ts ps (view stop_in stops.now (length stops.now)) asked.new (view tap_in laid.entry.taps.now (length laid.entry.taps.now)) (view stop_in stops.now (length stops.now)) }
{
    let pages = s.pages.len();
    let mut claims = ClaimRuns {
        starts: [0u32; STARTS],
        nexts: [0u32; STARTS],
        xs: [0u32; CLAIMS_MOST],
    };
    make_room(laid, stops, pages, &mut claims.starts);
    claims.nexts = claims.starts;
    claims.put_stops(stops, pages);
    ask_all(s, laid, stops, &mut claims, asked);
}
