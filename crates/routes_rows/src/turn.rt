// Corners, row by row: each question is answered by what is booked on its row before it. The cells that block stand in a lent slice.
ghost use Rattle.std.specs.Prelude.{◌≡◌, List, Bool, false, ◌&&◌, ℕ, ◌+◌, ◌-◌, ◌<◌, ◌≤◌, eqb, ltb, leb, length, get_or};
ghost use Rattle.routes.specs.Levels.{lowest, lightest};
ghost use Rattle.routes_rows.specs.Blocked.{count_in, level_no};
ghost use Rattle.routes_rows.specs.Booking.{order_at, unless, count_after};
ghost use Rattle.routes_rows.specs.Notes.{NOTES, CLASSES, row_no, NotesFit};
ghost use Rattle.routes_rows.specs.Turning.{Entry, corner_y, clear_at, load_at, of_class, answers_after};
ghost use Rattle.board.specs.Index.{found_of};
ghost use Rattle.routes_rows.specs.Entries.{in_slice, row_before, span_of, span_for, BlockedBy, BlockedFor, level_by, TellsClear, TellsLoads, RowFits, Sought, Turnable, Weighed, Decidable, Decided, TurnsFit};

use crate::blocked::{block_cells, spread};
use crate::book::{Cell, NO_CELL, append, count_before, count_tested};
use crate::loads::{lay, own_loads};
use crate::notes::{LOADS, begin_row, has_class};
use crate::standing::{block_row, found_cell};
use base::numbers::{MISSING, REROUTER_SIZE};
use base::rows::WorkRow;
use routes_levels::levels::{STAGGER_STEP, levels_in};

// As many cells of a row as the slice holds: as many as a board has bricks, wires and sources. A row with more, by a bus handed in, is walked once more for
// each of its questions.
const SLICE_MOST: usize = 12_800;

// The item that comes p-th, behind `before` cells of its row. Of all items the first so many are cells, the others questions.
#[derive(Clone, Copy)]
struct Item<'a> {
    items: &'a [WorkRow],
    p: usize,
    first: usize,
    before: usize,
}

// How many cells of the slice item i is held to, behind n cells of its row: a cell to none.
fn count_held(i: usize, first: usize, n: usize) -> usize
    ensures { result ≡ unless (ltb i first) (in_slice n) }
{
    count_tested(i, first, n.min(SLICE_MOST))
}

// The span of question i's levels.
fn span_of(items: &[WorkRow], i: usize) -> Cell
    requires { (i < length items.now) × (corner_y items.now i < 4294967290) }
    ensures { result ≡ span_of items.now i }
{
    let y = items[i][2];
    Cell {
        x0: items[i][0],
        x1: items[i][1],
        y0: y,
        y1: y + REROUTER_SIZE,
    }
}

// The span of item i: none of a cell.
fn span_for(items: &[WorkRow], i: usize, first: usize) -> Cell
    requires { (i < length items.now) × (first ≤ i → corner_y items.now i < 4294967290) }
    ensures { result ≡ span_for items.now first i }
{
    if i < first {
        return NO_CELL;
    }
    span_of(items, i)
}

// Where the slice holds not all cells of the row, the whole row blocks: what does so already does it twice.
fn block_rest(item: Item<'_>, answers: &[u32], span: Cell, ends: &mut [u32])
    requires { RowFits item.items.now item.p item.first answers.now × (count_in span ≤ length ends.old) × BlockedFor item.before span (row_before item.items.now item.first answers.now item.p) ends.old }
    ensures { (length ends.new ≡ length ends.old) × BlockedBy span (row_before item.entry.items.now item.entry.first answers.now item.entry.p) ends.new × ((k : ℕ) → count_in span ≤ k → get_or ends.new k 0 ≡ get_or ends.old k 0) }
{
    if SLICE_MOST < item.before {
        block_row(item.items, item.p, item.first, answers, span, ends);
    }
}

// Whether a level is unused and clear.
fn is_open(level: u32, end: u32, load: u32) -> bool
    ensures { result ≡ (eqb load 0 && leb end level) }
{
    (load == 0) & (end <= level)
}

// K5: the lowest level that is unused and clear, or none.
fn lowest_corner(span: Cell, notes: &[u32]) -> Option<u32>
    requires { (count_in span ≤ 1000) × (NOTES ≤ length notes.now) }
    ensures { (clear : ℕ → Bool) (load : ℕ → ℕ) → TellsClear span clear notes.now → TellsLoads span load notes.now
        → result ≡ found_of (lowest (λ l. eqb (load l) 0 && clear l) span.x0 (count_in span)) }
{
    let count = levels_in(span.x0, span.x1);
    // Stays (no plainer): document 01 names this form, a loop that yields by break.
    let mut k = 0;
    let found = loop {
        if count <= k {
            break None;
        }
        let level = span.x0 + STAGGER_STEP * k;
        if is_open(level, notes[k as usize], notes[LOADS + k as usize]) {
            break Some(level);
        }
        k += 1;
    };
    found
}

// K6: the least loaded level that is clear, or none. It goes from the highest down, so that the last one taken is the lowest.
fn least_loaded_corner(span: Cell, notes: &[u32]) -> Option<u32>
    requires { (count_in span ≤ 1000) × (NOTES ≤ length notes.now) }
    ensures { (clear : ℕ → Bool) (load : ℕ → ℕ) → TellsClear span clear notes.now → TellsLoads span load notes.now
        → result ≡ found_of (lightest clear load span.x0 (count_in span)) }
{
    // Stays (no plainer): no load is above MISSING, so one test takes the first clear level and the better ones alike; in one Option with its level, a load
    // would be taken out for each test.
    let mut best = None;
    let mut least = MISSING;
    // Stays (no plainer): a level's end stands at its number, and so does its load, and the level follows from that number.
    for k in (0..levels_in(span.x0, span.x1)).rev() {
        let level = span.x0 + STAGGER_STEP * k;
        if notes[k as usize] <= level {
            let load = notes[LOADS + k as usize];
            if load <= least {
                best = Some(level);
                least = load;
            }
        }
    }
    best
}

// Whether the row leaves a level of the span clear: where it does not, nothing else need be asked.
fn has_clear(span: Cell, ends: &[u32]) -> bool
    requires { count_in span ≤ length ends.now }
    ensures { (clear : ℕ → Bool) → TellsClear span clear ends.now → result ≡ false → (k : ℕ) → k < count_in span → clear (level_no span k) ≡ false }
{
    // Stays (no plainer): a level's end stands at its number, and the level follows from that number.
    for k in 0..levels_in(span.x0, span.x1) {
        if ends[k as usize] <= span.x0 + STAGGER_STEP * k {
            return true;
        }
    }
    false
}

// K5, K6: the level of a corner by the ends and the loads, or none.
fn seek_level(span: Cell, notes: &[u32]) -> Option<u32>
    requires { (count_in span ≤ 1000) × (NOTES ≤ length notes.now) }
    ensures { (booked : List Entry) (sink class : ℕ) → TellsClear span (clear_at booked span.y0) notes.now → TellsLoads span (load_at booked sink) notes.now
        → of_class booked class ≡ false → result ≡ found_of (level_by booked span sink class) }
{
    lowest_corner(span, notes).or_else(|| least_loaded_corner(span, notes))
}

// K5, K6: a corner's level, or none (K7), by what is noted of its row.
fn corner_level(span: Cell, sink: u32, class: u32, notes: &mut [u32]) -> Option<u32>
    requires { (count_in span ≤ 1000) × NotesFit notes.old × (sink ≡ 4294967295 → ⊥) × (class < CLASSES) }
    ensures { Sought span sink class notes.old notes.new result }
{
    if has_class(notes, class) {
        return None;
    }
    if !has_clear(span, notes) {
        return None;
    }
    own_loads(notes, sink, span.x0);
    seek_level(span, notes)
}

// The level of a question, by what is booked before it, of which the ends already tell so much as the slice holds.
fn weigh(item: Item<'_>, answers: &[u32], notes: &mut [u32]) -> Option<u32>
    requires { Turnable item.items.now item.p item.first item.before notes.old answers.now }
    ensures { Weighed item.entry.items.now item.entry.p item.entry.first answers.now notes.old notes.new result }
{
    let items = item.items;
    let i = items[item.p][7] as usize;
    let span = span_of(items, i);
    block_rest(item, answers, span, notes);
    let count = levels_in(span.x0, span.x1) as usize;
    spread(&mut notes[..count]);
    let found = corner_level(span, items[i][3], items[i][4], notes);
    notes[..count].fill(0);
    found
}

// A question: it is answered, and its corner noted.
// Stays (no plainer): an answer is a number, MISSING for none: where it is read back, one test tells that it is a level, and that the corner there ends within
// the numbers.
fn turn(item: Item<'_>, notes: &mut [u32], answers: &mut [u32]) -> Cell
    requires { Turnable item.items.now item.p item.first item.before notes.old answers.old }
    ensures { Decided item.entry.items.now item.entry.p item.entry.first notes.old answers.old notes.new answers.new result × (row_no notes.new ≡ row_no notes.old) }
{
    let found = weigh(item, answers, notes);
    let items = item.items;
    let i = items[item.p][7] as usize;
    answers[i - item.first] = found.unwrap_or(MISSING);
    lay(notes, items[i][3], items[i][4], found);
    found_cell(items[i][2], found)
}

// An item: a cell, or a question that is answered. The cell that it books comes back.
fn decide(item: Item<'_>, notes: &mut [u32], answers: &mut [u32]) -> Cell
    requires { Decidable item.items.now item.p item.first item.before notes.old answers.old }
    ensures { Decided item.entry.items.now item.entry.p item.entry.first notes.old answers.old notes.new answers.new result }
{
    begin_row(notes, item.before);
    let items = item.items;
    let i = items[item.p][7] as usize;
    if i < item.first {
        return Cell::from(items[i]);
    }
    turn(item, notes, answers)
}

// How many cells of the row count with this one behind n: one that ends at 0 overlaps nothing, so that the next is written over it.
fn count_next(n: usize, c: Cell) -> usize
    requires { n ≤ 4294967295 }
    ensures { result ≡ count_after (ltb 0 c.x1) n }
{
    n + usize::from(0 < c.x1)
}

// K4 to K7, K9: every question is answered in its turn, by what is booked on its row before it. The cells of a row are written over by those of the next.
// Stays (no plainer): the first m rows say which rows of the whole table come, so the table is not cut to them.
pub fn turn_rows(items: &[WorkRow], m: usize, first: usize, notes: &mut [u32], answers: &mut [u32])
    requires { TurnsFit items.now m first notes.old answers.old }
    ensures { answers.new ≡ answers_after items.now first m answers.old }
{
    let mut cells = [NO_CELL; SLICE_MOST];
    let mut n = 0;
    for p in 0..m {
        let before = count_before(items, p, n);
        let i = items[p][7] as usize;
        let held = count_held(i, first, before);
        let span = span_for(items, i, first);
        block_cells(&cells[..held], span, notes);
        let item = Item {
            items,
            p,
            first,
            before,
        };
        let c = decide(item, notes, answers);
        append(&mut cells, before, c, before < SLICE_MOST);
        n = count_next(before, c);
    }
}
