// The claims on spans of the lanes' columns, each by its x: those of the stops' own levels, then one for each head and link that is placed. Those of a lane
// stand side by side in a run, so that a question walks them without a jump; no board can draw other lanes' claims into its way.
ghost use Rattle.std.specs.Prelude.{◌≡◌, true, not, ℕ, suc, ◌+◌, ◌*◌, ◌<◌, ◌≤◌, length, get_or};
ghost use Rattle.sheet.specs.Table.{MISSING};
ghost use Rattle.base.specs.Lists.{any};
ghost use Rattle.base.specs.Runs.{having, sums};
ghost use Rattle.base.specs.Growing.{stretch, run_in, Growing, Filled};
ghost use Rattle.routes.specs.Stops.{near};
ghost use Rattle.routes_columns.specs.Columns.{lane_key, keys_of, own_key, stop_key, lane_of_tap, tap_key, level_at, room_of, TapKeyed, TapsLane, SamePlaces, ClaimRoom, Claiming};

use base::growing::put;
use base::rows::WorkRow;
use base::runs::sum_up;
use lanes::table::LANE_MOST;
use routes::laid::Laid;
use routes::levels::Level;

// Where the runs start and end, of the lanes of 64 pages and the one behind them.
pub(crate) const STARTS: usize = 64 * LANE_MOST + 2;

// The most claims: one for each of the stops, which are no more than the taps, and two for each of the 8,192 taps.
pub(crate) const CLAIMS_MOST: usize = 3 * 8_192;

// The number of a lane's run.
pub fn lane_key(page: u32, lane: u32) -> usize
    requires { (page < 64) × (lane < 512) }
    ensures { result ≡ lane_key page lane }
{
    page as usize * LANE_MOST + lane as usize
}

// That of a tap's lane.
fn tap_key(groups: &[WorkRow], tap: WorkRow) -> usize
    requires { TapsLane groups.now tap }
    ensures { result ≡ lane_of_tap groups.now tap }
{
    let g = tap[1] as usize;
    lane_key(tap[0], groups[g][4])
}

// That of a stop. A level that is not the stop's own claims nothing: it goes to the run behind those of the pages, which nobody asks.
// Stays (no plainer): that run is no Option, so that every stop is counted and put alike, as the law of filled runs says it.
fn stop_key(stop: WorkRow, pages: usize) -> usize
    requires { pages ≤ 64 }
    ensures { result ≡ own_key pages stop }
{
    let page = stop[0] as usize;
    let lane = stop[1] as usize;
    if Level::from(stop).is_own() & (page < pages) & (lane < LANE_MOST) {
        lane_key(stop[0], stop[1])
    } else {
        pages * LANE_MOST
    }
}

// One claim for each stop.
fn count_stops(stops: &[WorkRow], pages: usize, counts: &mut [u32])
    requires few_stops { (length stops.now ≤ 8192) × (pages ≤ 64) × (32768 < length counts.old) }
    requires by_index { (j : ℕ) → get_or counts.old j 0 ≡ 0 }
    ensures { (j : ℕ) → get_or counts.new j 0 ≡ having (stop_key pages stops.now) j (length stops.now) }
{
    for stop in stops {
        counts[stop_key(*stop, pages)] += 1;
    }
}

// Two for each tap: it asks for a head and a link at most.
fn count_taps(groups: &[WorkRow], taps: &[WorkRow], counts: &mut [u32])
    requires few_taps { (length taps.now ≤ 8192) × (32768 < length counts.old) × ((k : ℕ) → k < length taps.now → TapKeyed groups.now taps.now k) }
    requires by_index { (j : ℕ) → get_or counts.old j 0 ≤ 8192 }
    ensures { (j : ℕ) → get_or counts.new j 0 ≡ get_or counts.old j 0 + 2 * having (tap_key groups.now taps.now) j (length taps.now) }
{
    for tap in taps {
        counts[tap_key(groups, *tap)] += 2;
    }
}

// Where the run of each lane starts.
pub fn make_room(laid: Laid<'_>, stops: &[WorkRow], pages: usize, starts: &mut [u32])
    requires few_stops { (length stops.now ≤ length laid.taps.now) × (length laid.taps.now ≤ 8192) × (pages ≤ 64) × (32770 ≤ length starts.old) × ((k : ℕ) → k < length laid.taps.now → TapKeyed laid.groups.now laid.taps.now k) }
    requires by_index { (j : ℕ) → get_or starts.old j 0 ≡ 0 }
    ensures { (k : ℕ) → k ≤ keys_of pages → get_or starts.new k 0 ≡ sums (room_of pages laid.entry.groups.now laid.entry.taps.now (length laid.entry.taps.now) stops.now (length stops.now)) k }
{
    count_stops(stops, pages, starts);
    count_taps(laid.groups, laid.taps, starts);
    sum_up(&mut starts[..pages * LANE_MOST + 2]);
}

// Whether one of the claims is near x. All are looked at, without a branch, several at a time.
// Stays (slower): `is_unclaimed` of routes_levels asks the same by the distance of each claim, which takes more instructions on a long run than three tests.
fn near_in(claims: &[u32], x: u32) -> bool
    requires { x < 4294967295 }
    ensures { result ≡ any (near x) (stretch claims.now 0 (length claims.now)) }
{
    let low = x.saturating_sub(1);
    let high = x + 1;
    let mut hit = false;
    for claim in claims {
        let v = *claim;
        hit = (v == low) | (v == x) | (v == high) | hit;
    }
    hit
}

// The runs of the lanes of 64 pages and the one behind them: where each starts, where its next claim goes, and the claims: one a stop, two a tap.
// Stays (no plainer): `LevelRuns` of routes_levels has the same three fields, cuts runs and puts numbers likewise. One struct of both, with two numbers for its
// lengths, would ask for these as bounds in each contract, where the types of the arrays give them now.
#[derive(Drop)]
pub struct ClaimRuns {
    pub starts: [u32; STARTS],
    pub nexts: [u32; STARTS],
    pub xs: [u32; CLAIMS_MOST],
}

impl ClaimRuns {
    // The stops' own levels are the first claims.
    pub fn put_stops(&mut self, stops: &[WorkRow], pages: usize)
        requires room { (pages ≤ 64) × Growing (keys_of pages) self.old.nexts self.old.nexts self.old.xs }
        requires by_index { (k : ℕ) → k < keys_of pages → get_or self.old.nexts k 0 + having (stop_key pages stops.now) k (length stops.now) ≤ get_or self.old.nexts (suc k) 0 }
        ensures same_places { SamePlaces self.old self.new }
        ensures filled { Filled (stop_key pages stops.now) (level_at stops.now) (length stops.now) (keys_of pages) self.old.nexts self.new.nexts self.new.xs }
    {
        for stop in stops {
            put(
                &mut self.nexts,
                &mut self.xs,
                stop_key(*stop, pages),
                stop[5],
            );
        }
    }

    // Whether no claim of the k-th run is near x.
    fn is_free(&self, k: usize, x: u32) -> bool
        requires claim_room { ClaimRoom 1 self.now.starts self.now.nexts self.now.xs k }
        requires fact { x ≡ MISSING → ⊥ }
        ensures { result ≡ not (any (near x) (run_in self.now.starts self.now.nexts self.now.xs k)) }
    {
        let xs: &[u32] = &self.xs;
        !near_in(&xs[self.starts[k] as usize..self.nexts[k] as usize], x)
    }

    // Claims the span at x in the k-th run's lane, where no claim is near it.
    pub fn claim_column(&mut self, k: usize, x: u32) -> bool
        requires claim_room { ClaimRoom 1 self.old.starts self.old.nexts self.old.xs k }
        requires fact { x ≡ MISSING → ⊥ }
        ensures same_places { SamePlaces self.old self.new }
        ensures claiming { Claiming self.old.starts k x true self.old.nexts self.old.xs self.new.nexts self.new.xs result }
    {
        let free = self.is_free(k, x);
        if free {
            put(&mut self.nexts, &mut self.xs, k, x);
        }
        free
    }
}
