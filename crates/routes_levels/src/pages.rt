// The runs of a page: the levels in use on each of its rows stand side by side, and so do the claims of each of its lanes. The taps of the page tell before how
// much room each needs.
ghost use Rattle.std.specs.Prelude.{◌≡◌, List, ℕ, suc, ◌<◌, ◌≤◌, ◌+◌, ◌-◌, ◌*◌, nat_eq, not, length, get_or, set};
ghost use Rattle.std.specs.List.{position};
ghost use Rattle.sheet.specs.Table.{MISSING};
ghost use Rattle.base.specs.Runs.{sums};
ghost use Rattle.base.specs.Growing.{run_in, Growing};
ghost use Rattle.board.specs.Board.{field};
ghost use Rattle.board.specs.Index.{found_of};
ghost use Rattle.routes.specs.Levels.{Level as StopsLevel, Stop, kept_at, find_level};
ghost use Rattle.routes_levels.specs.Laying.{stop_answer, PlacesFit, ROWS_MOST, LANES_MOST};
ghost use Rattle.routes_levels.specs.Pages.{KEYS, lane_key, claim_of, levels_on, claims_on, Grown, Runs, RoomFor, Onward, share, OnePage};

use crate::finding::find_level;
use crate::laying::WIRES_MOST;
use crate::stops::group_of;
use base::growing::put;
use base::rows::WorkRow;
use lanes::table::LANE_MOST;
use routes::laid::Laid;
use routes::levels::Level;

// The most rows of a page.
pub const ROWS_MOST: usize = 4_096;

// The most runs: those of the lanes come behind those of the rows.
pub const KEYS: usize = ROWS_MOST + LANE_MOST;

// The run of a lane.
pub fn lane_key(lane: u32) -> usize
    ensures { result ≡ lane_key lane }
{
    ROWS_MOST + lane as usize
}

// One more with a key.
fn count_key(counts: &mut [u32], k: usize)
    requires { (k < length counts.old) × (get_or counts.old k 0 < 65536) }
    ensures { counts.new ≡ set counts.old k (suc (get_or counts.old k 0)) }
{
    counts[k] += 1;
}

// Counts the taps from the a-th up to the e-th by row and by lane.
pub fn count_taps(laid: Laid<'_>, a: usize, e: usize, counts: &mut [u32])
    requires places_fit { PlacesFit laid.groups.now laid.taps.now e }
    requires a_le_e { (a ≤ e) × (KEYS < length counts.old) × ((k : ℕ) → get_or counts.old k 0 ≡ 0) }
    ensures by_index { (k : ℕ) → get_or counts.new k 0 ≡ share laid.entry.groups.now laid.entry.taps.now a k (e - a) }
    ensures by_index_2 { (n : ℕ) → sums (λ j. get_or counts.new j 0) n ≤ 2 * (e - a) }
{
    for tap in &laid.taps[a..e] {
        count_key(counts, tap[2] as usize);
        count_key(counts, lane_key(laid.groups[group_of(*tap)][4]));
    }
}

// Which of the taps is the first of another page.
fn first_elsewhere(taps: &[WorkRow], page: u32) -> Option<usize>
    ensures { result ≡ position (λ tap. not (nat_eq (get_or tap 0 0) page)) taps.now }
{
    taps.iter().position(|tap| tap[0] != page)
}

// Where the page of the a-th tap ends.
pub fn page_end(laid: &[WorkRow], a: usize) -> usize
    requires { a < length laid.now }
    ensures { (a < result) × (result ≤ length laid.now) × OnePage laid.now a result × (result < length laid.now → field laid.now result 0 ≡ field laid.now a 0 → ⊥) }
{
    // Stays (unproved): through a map_or the check did not find what its closure gives.
    match first_elsewhere(&laid[a..], laid[a][0]) {
        Some(n) => a + n,
        None => laid.len(),
    }
}

// The runs of a page: where each starts, where its next level goes, and the levels.
#[derive(Drop)]
pub struct LevelRuns {
    pub starts: [u32; KEYS + 1],
    pub nexts: [u32; KEYS + 1],
    pub xs: [u32; 2 * WIRES_MOST],
}

impl LevelRuns {
    // The level of a stop on a row and in a lane, by what their runs hold.
    pub fn find(&self, row: u32, lane: u32, base: u32, top: u32) -> Option<u32>
        requires growing { Growing KEYS self.now.starts self.now.nexts self.now.xs }
        requires row_bound { (row < ROWS_MOST) × (lane < LANES_MOST) }
        ensures { (ss : List Stop) (p : ℕ) → run_in self.now.starts self.now.nexts self.now.xs row ≡ levels_on ss p row
            → run_in self.now.starts self.now.nexts self.now.xs (lane_key lane) ≡ claims_on ss p lane → result ≡ found_of (find_level ss p lane row base top) }
    {
        let r = row as usize;
        let k = lane_key(lane);
        let xs: &[u32] = &self.xs;
        find_level(
            &xs[self.starts[r] as usize..self.nexts[r] as usize],
            &xs[self.starts[k] as usize..self.nexts[k] as usize],
            base,
            top,
        )
    }

    // A kept stop's level goes to the run of its row, an own level to that of its lane too.
    pub fn keep(&mut self, row: u32, lane: u32, level: Level)
        requires row_bound { (row < ROWS_MOST) × (lane < LANES_MOST) }
        requires row_in_bounds { (get_or self.old.nexts row 0 < length self.old.xs) × (get_or self.old.nexts (lane_key lane) 0 < length self.old.xs) }
        ensures starts_kept { self.new.starts ≡ self.old.starts }
        ensures onward { Onward row (lane_key lane) self.old.nexts self.new.nexts }
        ensures runs { (v : StopsLevel) (starts : List ℕ) (rows lanes rows' lanes' : ℕ → List ℕ) → level ≡ stop_answer v
            → Runs rows lanes starts self.old.nexts self.old.xs → RoomFor row lane starts self.old.nexts → Grown row (kept_at v) rows rows' → Grown lane (claim_of v) lanes lanes'
            → Runs rows' lanes' starts self.new.nexts self.new.xs }
    {
        match level {
            Level::Dropped => {}
            Level::Shared(l) => {
                put(&mut self.nexts, &mut self.xs, row as usize, l);
            }
            Level::Own(l) => {
                put(&mut self.nexts, &mut self.xs, row as usize, l);
                put(&mut self.nexts, &mut self.xs, lane_key(lane), l);
            }
        }
    }
}
