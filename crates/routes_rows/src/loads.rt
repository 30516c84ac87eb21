// How many corners of a sink stand at each level on the row at hand: kept in the notes while the next question is of the same sink, and counted anew from the
// corners listed where it is not.
ghost use Rattle.std.specs.Prelude.{◌≡◌, ◌&&◌, ℕ, ◌+◌, ◌*◌, ◌<◌, ◌≤◌, eqb, length};
ghost use Rattle.routes_rows.specs.Notes.{NOTES, CLASSES, listed, owner_of, owner_x, load_no, pair_load, NotesFit, LoadsOnly, Added, Owns, Raised, Listed};
ghost use Rattle.base.specs.Lists.{Found, at};
ghost use Rattle.board.specs.Index.{found_of};
ghost use Rattle.routes_rows.specs.Entries.{Laid};

use crate::blocked::LEVELS_MOST;
use crate::notes::{COUNT, LOADS, OWNER, OWNER_X, PAIRS, ROW, STAMPS};
use routes_levels::levels::{STAGGER_STEP, levels_in};

// As many levels as have a load.
const LOADED: u32 = LEVELS_MOST as u32;

// A corner at a level is counted, if that is one of those from x0 on.
fn add_load(notes: &mut [u32], x0: u32, level: u32)
    requires { (NOTES ≤ length notes.old) × ((k : ℕ) → k < 1000 → load_no notes.old k < 4294967295) }
    ensures { Added level x0 notes.old notes.new }
{
    let k = levels_in(x0, level);
    if LOADED <= k {
        return;
    }
    if x0 + STAGGER_STEP * k != level {
        return;
    }
    notes[LOADS + k as usize] += 1;
}

// No load stands.
fn clear_loads(notes: &mut [u32])
    requires { NOTES ≤ length notes.old }
    ensures { LoadsOnly notes.old notes.new × ((k : ℕ) → k < 1000 → load_no notes.new k ≡ 0) }
{
    notes[LOADS..LOADS + LEVELS_MOST].fill(0);
}

// The corners of a sink that are listed, counted at their levels from x0 on.
fn count_loads(notes: &mut [u32], sink: u32, x0: u32)
    requires { (NOTES ≤ length notes.old) × (listed notes.old ≤ CLASSES) × ((k : ℕ) → k < 1000 → load_no notes.old k ≡ 0) }
    ensures { LoadsOnly notes.old notes.new × ((k : ℕ) → k < 1000 → load_no notes.new k ≡ pair_load notes.old (listed notes.old) sink (x0 + 2 * k)) }
{
    // Stays (no plainer): the pairs stand in the slice that the loads are written to, so it is not walked by its elements.
    for q in 0..notes[COUNT] as usize {
        let at = PAIRS + 2 * q;
        if notes[at] == sink {
            let level = notes[at + 1];
            add_load(notes, x0, level);
        }
    }
}

// Whether the loads are those of a sink from x0 on.
fn is_owner(notes: &[u32], sink: u32, x0: u32) -> bool
    requires { NOTES ≤ length notes.now }
    ensures { result ≡ (eqb (owner_of notes.now) sink && eqb (owner_x notes.now) x0) }
{
    (notes[OWNER] == sink) & (notes[OWNER_X] == x0)
}

// The loads become those of a sink from x0 on.
fn recount(notes: &mut [u32], sink: u32, x0: u32)
    requires { (NOTES ≤ length notes.old) × (listed notes.old ≤ CLASSES) }
    ensures { Owns sink x0 notes.old notes.new }
{
    clear_loads(notes);
    count_loads(notes, sink, x0);
    notes[OWNER] = sink;
    notes[OWNER_X] = x0;
}

// The loads are those of a sink from x0 on, counted anew where they are another's.
pub fn own_loads(notes: &mut [u32], sink: u32, x0: u32)
    requires { NotesFit notes.old × (sink ≡ 4294967295 → ⊥) }
    ensures { Owns sink x0 notes.old notes.new }
{
    if is_owner(notes, sink, x0) {
        return;
    }
    recount(notes, sink, x0);
}

// A corner more at a level of a sink, where the loads are that sink's.
fn raise_load(notes: &mut [u32], sink: u32, level: u32)
    requires { NotesFit notes.old × (sink ≡ 4294967295 → ⊥) }
    ensures { Raised sink level notes.old notes.new }
{
    if notes[OWNER] == sink {
        let x0 = notes[OWNER_X];
        add_load(notes, x0, level);
    }
}

// A corner is listed behind those laid before it.
fn list_corner(notes: &mut [u32], sink: u32, level: u32)
    requires { (NOTES ≤ length notes.old) × (listed notes.old < CLASSES) }
    ensures { Listed sink level notes.old notes.new }
{
    let count = notes[COUNT];
    let at = PAIRS + 2 * count as usize;
    notes[at] = sink;
    notes[at + 1] = level;
    notes[COUNT] = count + 1;
}

// Stays (no plainer): loads go by a sink alone and stamps by a class alone, and what each of the two must be stands where it is taken.
// A corner of the row at hand: its load, its place in the list, its class.
fn lay_corner(notes: &mut [u32], sink: u32, class: u32, level: u32)
    requires { NotesFit notes.old × (listed notes.old < CLASSES) × (sink ≡ 4294967295 → ⊥) × (class < CLASSES) }
    ensures { Laid sink class (at level) notes.old notes.new }
{
    raise_load(notes, sink, level);
    list_corner(notes, sink, level);
    notes[STAMPS + class as usize] = notes[ROW];
}

// A question is noted: its corner, where it has a level.
pub fn lay(notes: &mut [u32], sink: u32, class: u32, found: Option<u32>)
    requires { NotesFit notes.old × (listed notes.old < CLASSES) × (sink ≡ 4294967295 → ⊥) × (class < CLASSES) }
    ensures { (f : Found) → found ≡ found_of f → Laid sink class f notes.old notes.new }
{
    if let Some(level) = found {
        lay_corner(notes, sink, class, level);
    }
}
