// The level that a stop is given: the lowest that is free, or the least loaded. Levels are looked at in windows.
ghost use Rattle.std.specs.Prelude.{◌≡◌, List, ℕ, ◌<◌, ◌≤◌, ◌+◌, ◌*◌, length};
ghost use Rattle.sheet.specs.Table.{MISSING};
ghost use Rattle.board.specs.Index.{found_of};
ghost use Rattle.routes.specs.Levels.{Stop, STAGGER_STEP, lowest, lightest, find_level};
ghost use Rattle.routes_levels.specs.Search.{load_in, open_in, free_in, picked, Weighed, Walked, level_of, load_of, Best};

use crate::levels::{STAGGER_STEP, levels_in};
use crate::windows::{
    Lightest, is_unclaimed, level_of, lightest_in, lowest_in, pick_in, weigh_window,
};

// The levels of the first window, which do for most stops; of one that does for most rows; and of the windows of a row with more.
pub const FEW: usize = 64;

pub const SOME: usize = 1_024;

pub const MANY: usize = 4_096;

// So many levels from `base` on, with what tells of them: the levels in use on a stop's row, and the claims of its lane.
#[derive(Clone, Copy)]
pub struct Search<'a> {
    pub row: &'a [u32],
    pub lane: &'a [u32],
    pub base: u32,
    pub count: u32,
    ghost few: { length row.now < MISSING },
    ghost in_range: { base + STAGGER_STEP * count ≤ MISSING },
}

impl<'a> Search<'a> {
    // What the levels weigh, from the k-th on, in a window of N.
    fn window<const N: usize>(self, k: u32) -> [u32; N]
        requires { (N ≤ 4096) × (k ≤ self.count) }
        ensures { Weighed self.entry.row.now self.entry.lane.now (self.entry.base + STAGGER_STEP * k) result × (length result ≡ N) }
    {
        let mut loads = [0u32; N];
        let start = self.base + STAGGER_STEP * k;
        weigh_window(self.row, self.lane, start, &mut loads);
        loads
    }

    // The lowest free one of `size` from the k-th on, which a window of N has, or none.
    fn free_in_window<const N: usize>(self, k: u32, size: u32) -> Option<u32>
        requires { (size ≤ N) × (N ≤ 4096) × (k + size ≤ self.count) }
        ensures { result ≡ found_of (lowest (free_in self.entry.row.now self.entry.lane.now) (self.entry.base + STAGGER_STEP * k) size) }
    {
        let loads = self.window::<N>(k);
        lowest_in(&loads[..size as usize], self.base + STAGGER_STEP * k)
    }

    // V3: the lowest free one, or none.
    fn lowest_free(self) -> Option<u32>
        ensures { result ≡ found_of (lowest (free_in self.entry.row.now self.entry.lane.now) self.entry.base self.entry.count) }
    {
        let mut done: u32 = 0;
        // Stays (no plainer): it goes from window to window.
        while done < self.count {
            let size = (self.count - done).min(MANY as u32);
            if let Some(level) = self.free_in_window::<MANY>(done, size) {
                return Some(level);
            }
            done += size;
        }
        None
    }

    // The lightest of `size` from the k-th on, which a window of N has, and of those above them.
    fn lightest_in_window<const N: usize>(
        self,
        k: u32,
        size: u32,
        best: Option<Lightest>,
    ) -> Option<Lightest>
        requires { (size ≤ N) × (N ≤ 4096) × (k + size ≤ self.count) }
        ensures { Best (open_in self.entry.lane.now) (load_in self.entry.row.now) self.entry.base self.entry.count (k + size) (level_of best) (load_of best)
            → Best (open_in self.entry.lane.now) (load_in self.entry.row.now) self.entry.base self.entry.count k (level_of result) (load_of result) }
    {
        let loads = self.window::<N>(k);
        lightest_in(&loads[..size as usize], self.base + STAGGER_STEP * k, best)
    }

    // V7: the least loaded one that is unclaimed, or none. The windows go from the highest down.
    fn least_loaded(self) -> Option<u32>
        ensures { result ≡ found_of (lightest (open_in self.entry.lane.now) (load_in self.entry.row.now) self.entry.base self.entry.count) }
    {
        let mut best = None;
        let mut k = self.count;
        while 0 < k {
            let size = k.min(MANY as u32);
            k -= size;
            best = self.lightest_in_window::<MANY>(k, size, best);
        }
        level_of(best)
    }

    // V3, V7: the lowest free one, of so many as a window of N has, else the least loaded that can be claimed, or none. One window does for both.
    fn pick_in_window<const N: usize>(self) -> Option<u32>
        requires { (self.count ≤ N) × (N ≤ 4096) }
        ensures { result ≡ found_of (picked self.entry.row.now self.entry.lane.now self.entry.base self.entry.count) }
    {
        let loads = self.window::<N>(0);
        pick_in(&loads[..self.count as usize], self.base)
    }

    // The same of however many: the row and the lane are walked for the lowest free level and again for the least loaded.
    fn pick_in_many(self) -> Option<u32>
        ensures { result ≡ found_of (picked self.entry.row.now self.entry.lane.now self.entry.base self.entry.count) }
    {
        // Stays (no plainer): each return says that the searches below it are not begun. So in `pick` and `find_level`.
        if let Some(level) = self.lowest_free() {
            return Some(level);
        }
        self.least_loaded()
    }

    // The same, by a window as long as it needs to be: one of zeros has to be made for each. Where there are more than a few levels, one of the first is mostly
    // free.
    fn pick(self) -> Option<u32>
        ensures { result ≡ found_of (picked self.entry.row.now self.entry.lane.now self.entry.base self.entry.count) }
    {
        if self.count <= FEW as u32 {
            return self.pick_in_window::<FEW>();
        }
        if let Some(level) = self.free_in_window::<FEW>(0, FEW as u32) {
            return Some(level);
        }
        if self.count <= SOME as u32 {
            return self.pick_in_window::<SOME>();
        }
        self.pick_in_many()
    }
}

// V3, V8: the lowest free level; else the least loaded that can be claimed (V7); else base, if that can. `row` has the levels in use on the stop's row, `lane`
// the claims of its lane.
pub fn find_level(row: &[u32], lane: &[u32], base: u32, top: u32) -> Option<u32>
    requires { length row.now < MISSING }
    ensures { (ss : List Stop) (p l q : ℕ) → Walked row.now lane.now ss p l q → result ≡ found_of (find_level ss p l q base top) }
{
    let levels = Search {
        row,
        lane,
        base,
        count: levels_in(base, top),
    };
    if let Some(level) = levels.pick() {
        return Some(level);
    }
    is_unclaimed(lane, base).then_some(base)
}
