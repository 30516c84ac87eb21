// Stops: which groups are laid, and their taps in the order of laying.
ghost use Rattle.std.specs.Prelude.{◌≡◌, ℕ, ◌%◌, ◌≤◌, ◌<◌, min, max, length, get_or, take};
ghost use mathlib.Core.List.{List, Memᴰ, map};
ghost use Rattle.base.specs.Lists.{keep};
ghost use Rattle.base.specs.Sort.{sorted_rows};
ghost use Rattle.board.specs.Board.{Board};
ghost use Rattle.board.specs.Groups.{Tap};
ghost use Rattle.board.specs.Demands.{PageLanes};
ghost use Rattle.base.specs.Views.{view};
ghost use Rattle.board.specs.Tables.{tap_in, tap_row};
ghost use Rattle.routes.specs.Stops.{long_enough, is_laid, laid_taps};
ghost use Rattle.routes_levels.specs.Laying.{GroupFits, TapsFit, Tabled, WIRES_MOST, row_at, Numbered};

use crate::laying::WIRES_MOST;
use base::keys::{number_behind, sort_keys, with_number};
use base::numbers::MISSING;
use base::rows::{Record, WorkRow};
use base::sort::sort_rows;

// A lane whose source and taps span less is already a short hop.
pub const MIN_LANE_TRAVEL: u32 = 6;

// Stays (no plainer): nodes, facts and groups stand side by side in four functions; what holds of the three is named (`GroupFits`, `TapsFit`, `Tabled`), and a
// struct of them would be opened again where they are read.
// T1: whether the source anchor of group `g` is unplaced, or taps and source lie far enough apart.
pub fn long_enough(nodes: &[Record], facts: &[WorkRow], groups: &[WorkRow], g: usize) -> bool
    requires { GroupFits nodes.now facts.now groups.now g }
    ensures { (b : Board) (ts : List Tap) (ps : List PageLanes) (t : Tap)
        → Tabled b ts ps nodes.now facts.now groups.now
        → Memᴰ t ts → t.group ≡ g → result ≡ long_enough b ts g }
{
    let source = facts[g][2] as usize;
    let x = nodes[source][8];
    if x == MISSING {
        return true;
    }
    let low = x.min(groups[g][5]);
    let high = x.max(groups[g][6]);
    MIN_LANE_TRAVEL <= high - low
}

// Whether the taps of group `g` are laid.
fn is_laid(nodes: &[Record], facts: &[WorkRow], groups: &[WorkRow], g: usize) -> bool
    requires { GroupFits nodes.now facts.now groups.now g }
    ensures { (b : Board) (ts : List Tap) (ps : List PageLanes) (t : Tap)
        → Tabled b ts ps nodes.now facts.now groups.now
        → Memᴰ t ts → t.group ≡ g → result ≡ is_laid b ts ps t }
{
    groups[g][4] != MISSING && long_enough(nodes, facts, groups, g)
}

// The group of a tap's row, which has eight numbers.
pub fn group_of(tap: WorkRow) -> usize
    ensures { (result ≡ (tap_in tap).group) × (length tap ≡ 8) }
{
    tap[1] as usize
}

// Copies the taps of laid groups, from the newest to the oldest, so that the rows stand in the order of the list.
fn pick_laid(
    nodes: &[Record],
    facts: &[WorkRow],
    groups: &[WorkRow],
    taps: &[WorkRow],
    laid: &mut [WorkRow],
) -> usize
    requires taps_fit { TapsFit nodes.now facts.now groups.now taps.now }
    requires room { length taps.now ≤ length laid.old }
    ensures upper_bound { result ≤ length taps.now }
    ensures laid_after { (b : Board) (ps : List PageLanes)
        → Tabled b (view tap_in taps.now (length taps.now)) ps nodes.now facts.now groups.now
        → take result laid.new ≡ map tap_row (keep (is_laid b (view tap_in taps.now (length taps.now)) ps) (view tap_in taps.now (length taps.now))) }
{
    let mut n: usize = 0;
    for tap in taps.iter().rev() {
        if is_laid(nodes, facts, groups, group_of(*tap)) {
            laid[n] = *tap;
            n += 1;
        }
    }
    n
}

// Page, group and row of tap i in one number, 6, 13 and 12 bits, then i. The tap's row is the one with number i, whatever the bits in front of it say.
fn pack_place(tap: WorkRow, i: usize) -> u64
    requires { i < WIRES_MOST }
    ensures { result % WIRES_MOST ≡ i }
{
    let group = (tap[0] % 64) as u64 * 8_192 + (tap[1] % 8_192) as u64;
    with_number(group * 4_096 + (tap[2] % 4_096) as u64, i)
}

// The packed places of the rows.
// Stays (no plainer): each crate that sorts by packed keys has one of its own: the loop is one line, and what differs between the crates is the key.
fn fill_keys(rows: &[WorkRow], keys: &mut [u64])
    requires { (length rows.now ≡ length keys.old) × (length rows.now ≤ WIRES_MOST) }
    ensures { Numbered keys.new (length rows.now) }
{
    for (i, row) in rows.iter().enumerate() {
        keys[i] = pack_place(*row, i);
    }
}

// Copies the rows whose numbers stand behind the keys.
fn copy_along(keys: &[u64], from: &[WorkRow], to: &mut [WorkRow])
    requires room { length keys.now ≤ length to.old }
    requires by_index { (p : ℕ) → p < length keys.now → get_or keys.now p 0 % WIRES_MOST < length from.now }
    ensures { take (length keys.now) to.new ≡ map (row_at from.now) keys.now }
{
    for (i, key) in keys.iter().enumerate() {
        to[i] = from[number_behind(*key)];
    }
}

// Copies the rows nearly in the order of T2: by page, group and row. Sorting them all the way then hardly moves a row.
fn bring_near(from: &[WorkRow], to: &mut [WorkRow])
    requires { (length from.now ≤ length to.old) × (length from.now ≤ WIRES_MOST) }
    ensures { sorted_rows (take (length from.now) to.new) ≡ sorted_rows from.now }
{
    let mut places = [0u64; WIRES_MOST];
    let mut spare = [0u64; WIRES_MOST];
    let keys = &mut places[..from.len()];
    fill_keys(from, keys);
    sort_keys(keys, &mut spare);
    copy_along(keys, from, to);
}

// The taps of the laid groups in the order of laying, in the first rows of `laid`: how many there are.
pub fn lay_taps(
    nodes: &[Record],
    facts: &[WorkRow],
    groups: &[WorkRow],
    taps: &[WorkRow],
    laid: &mut [WorkRow],
    spare: &mut [WorkRow],
) -> usize
    requires taps_fit { TapsFit nodes.now facts.now groups.now taps.now }
    requires room { (length taps.now ≤ length laid.old) × (length taps.now ≤ length spare.old) }
    ensures upper_bound { result ≤ length taps.now }
    ensures result_after { (b : Board) (ps : List PageLanes)
        → Tabled b (view tap_in taps.now (length taps.now)) ps nodes.now facts.now groups.now
        → view tap_in laid.new result ≡ laid_taps b (view tap_in taps.now (length taps.now)) ps }
{
    let n = pick_laid(nodes, facts, groups, taps, spare);
    bring_near(&spare[..n], laid);
    sort_rows(&mut laid[..n], spare);
    n
}
