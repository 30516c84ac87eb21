// Windows of levels: some levels side by side, each with what it weighs. The levels in use on a row and the claims of a lane are walked once to fill one.
ghost use Rattle.std.specs.Prelude.{◌≡◌, List, ℕ, ◌<◌, ◌≤◌, ◌+◌, ◌*◌, eqb, leb, length, get_or};
ghost use Rattle.sheet.specs.Table.{MISSING};
ghost use Rattle.routes.specs.Stops.{near};
ghost use Rattle.routes.specs.Levels.{STAGGER_STEP, lowest};
ghost use Rattle.board.specs.Index.{found_of};
ghost use Rattle.routes_levels.specs.Search.{counted, weigh, near_one, load_in, open_in, free_in, picked, Weighed, level_of, load_of, Best};

use crate::levels::{STAGGER_STEP, is_near};
use base::numbers::{MISSING, REROUTER_SIZE};

// What a claimed level weighs: more than any load.
pub const CLAIMED: u32 = MISSING;

// The lightest level so far, and its load.
#[derive(Clone, Copy)]
pub struct Lightest {
    pub level: u32,
    pub load: u32,
}

// The level, where there is one.
pub fn level_of(best: Option<Lightest>) -> Option<u32>
    ensures { result ≡ level_of best }
{
    best.map(|lightest| lightest.level)
}

// Whether a load is no greater than that of the lightest so far.
fn is_as_light(load: u32, best: Option<Lightest>) -> bool
    ensures { result ≡ leb load (load_of best) }
{
    // Stays (no plainer): a match says it as briefly as `is_none_or` with a closure.
    match best {
        Some(lightest) => load <= lightest.load,
        None => true,
    }
}

// A level in use counts where it is one of the window's.
fn count_level(loads: &mut [u32], start: u32, level: u32)
    requires { (j : ℕ) → j < length loads.old → get_or loads.old j 0 < MISSING }
    ensures { (j : ℕ) → j < length loads.old → get_or loads.new j 0 ≡ counted (eqb level (start + STAGGER_STEP * j)) (get_or loads.old j 0) }
{
    if level < start {
        return;
    }
    let d = level - start;
    let j = (d / STAGGER_STEP) as usize;
    if loads.len() <= j {
        return;
    }
    if d % STAGGER_STEP != 0 {
        return;
    }
    loads[j] += 1;
}

// Counts the levels of a row in a window of zeros.
fn count_levels(row: &[u32], start: u32, loads: &mut [u32])
    requires { (length row.now < MISSING) × ((j : ℕ) → j < length loads.old → get_or loads.old j 0 ≡ 0) }
    ensures { (j : ℕ) → j < length loads.old → get_or loads.new j 0 ≡ load_in row.now (start + STAGGER_STEP * j) }
{
    for level in row {
        count_level(loads, start, *level);
    }
}

// The j-th level is claimed, where the window has it.
fn mark(loads: &mut [u32], j: usize)
    ensures { (i : ℕ) → i < length loads.old → get_or loads.new i 0 ≡ weigh (eqb i j) (get_or loads.old i 0) }
{
    // Stays (no plainer): by a test and an index it stands plainly what the window holds afterwards; through `get_mut` that is told by what the loan leaves.
    if j < loads.len() {
        loads[j] = CLAIMED;
    }
}

// A claim is near the levels at it, one below it and one above it: the window has at most two of them.
fn mark_claim(loads: &mut [u32], start: u32, claim: u32)
    ensures { (j : ℕ) → j < length loads.old → get_or loads.new j 0 ≡ weigh (near (start + STAGGER_STEP * j) claim) (get_or loads.old j 0) }
{
    if claim < start {
        if start - claim < REROUTER_SIZE {
            mark(loads, 0);
        }
        return;
    }
    let d = (claim - start) as usize;
    mark(loads, d / 2);
    mark(loads, (d + 1) / 2);
}

// Marks the levels that are near a claim of the lane.
fn mark_claims(lane: &[u32], start: u32, loads: &mut [u32])
    ensures { (j : ℕ) → j < length loads.old → get_or loads.new j 0 ≡ weigh (near_one lane.now (start + STAGGER_STEP * j) (length lane.now)) (get_or loads.old j 0) }
{
    for claim in lane {
        mark_claim(loads, start, *claim);
    }
}

// What the levels from `start` on weigh, in a window of zeros.
pub fn weigh_window(row: &[u32], lane: &[u32], start: u32, loads: &mut [u32])
    requires { (length row.now < MISSING) × ((j : ℕ) → j < length loads.old → get_or loads.old j 0 ≡ 0) }
    ensures { Weighed row.now lane.now start loads.new }
{
    count_levels(row, start, loads);
    mark_claims(lane, start, loads);
}

// V3: the lowest free level of a window, or none.
pub fn lowest_in(loads: &[u32], start: u32) -> Option<u32>
    requires { start + STAGGER_STEP * length loads.now ≤ MISSING }
    ensures { (row lane : List ℕ) → Weighed row lane start loads.now → result ≡ found_of (lowest (free_in row lane) start (length loads.now)) }
{
    // Stays (no plainer): document 01 names this form, a loop that yields by break.
    let mut j = 0;
    let found = loop {
        if loads.len() <= j {
            break None;
        }
        if loads[j] == 0 {
            break Some(start + STAGGER_STEP * j as u32);
        }
        j += 1;
    };
    found
}

// V7: the lightest of the levels of a window and of those above it, of equals the lowest. It goes from the highest down, so that the last one taken is the
// lowest.
// Stays (no plainer): what this and `least_loaded_corner` of routes_rows share is one comparison; the rest reads a window here, ends and loads there.
pub fn lightest_in(loads: &[u32], start: u32, best: Option<Lightest>) -> Option<Lightest>
    requires { start + STAGGER_STEP * length loads.now ≤ MISSING }
    ensures { (row lane : List ℕ) (base count k : ℕ) → length row < MISSING → Weighed row lane start loads.now → start ≡ base + STAGGER_STEP * k → k + length loads.now ≤ count
        → Best (open_in lane) (load_in row) base count (k + length loads.now) (level_of best) (load_of best) → Best (open_in lane) (load_in row) base count k (level_of result) (load_of result) }
{
    let mut lightest = best;
    // Stays (no plainer): a level goes by its place in the window, and `.iter().enumerate().rev()` would count the places from the other end of the slice.
    for j in (0..loads.len()).rev() {
        let load = loads[j];
        if load != CLAIMED && is_as_light(load, lightest) {
            lightest = Some(Lightest {
                level: start + STAGGER_STEP * j as u32,
                load,
            });
        }
    }
    lightest
}

// V3, V7: of the levels of a window the lowest free one, else the lightest that can be claimed, or none.
pub fn pick_in(loads: &[u32], start: u32) -> Option<u32>
    requires { start + STAGGER_STEP * length loads.now ≤ MISSING }
    ensures { (row lane : List ℕ) → length row < MISSING → Weighed row lane start loads.now → result ≡ found_of (picked row lane start (length loads.now)) }
{
    // Stays (unproved): by or_else the check did not find that the second search gives the answer.
    if let Some(level) = lowest_in(loads, start) {
        return Some(level);
    }
    level_of(lightest_in(loads, start, None))
}

// `claim_column`'s test: no claim of the lane overlaps the span of 2 at `level`. It goes on after a hit, so that the compiler takes several claims at a time.
pub fn is_unclaimed(lane: &[u32], level: u32) -> bool
    ensures { result ≡ open_in lane.now level }
{
    let mut hit = false;
    for claim in lane {
        hit |= is_near(level, *claim);
    }
    !hit
}
