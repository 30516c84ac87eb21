// What is noted while the corners of rows are decided, in a lent slice: at first the ends of LEVELS_MOST levels; from STAMPS on, for each class, the number
// of the row on which a corner of it was laid last; at ROW the number of the row at hand, at COUNT how many corners are laid on it, and from PAIRS on the
// sink and the level of each; at OWNER and OWNER_X a sink and an x, and from LOADS on how many of that sink's corners stand at each of LEVELS_MOST levels
// from there. Rows are numbered as they come, so that no stamp is cleared where one begins. Where there is no owner, its place holds MISSING, which is no
// node's number.
// Stays (no plainer): the notes are lent as one slice of zeros, whose length the contracts ask for; a struct of these parts would be a type that a caller who
// only lends the room has to know and to begin.
ghost use Rattle.std.specs.Prelude.{◌≡◌, ◌<◌, ◌≤◌, eqb, length};
ghost use Rattle.routes_rows.specs.Notes.{NOTES, CLASSES, stamp_of, row_no, NotesLow, Begun};

use crate::blocked::LEVELS_MOST;
use base::numbers::MISSING;

// How many classes there are, and as many corners on a row.
const CLASSES_MOST: usize = 8_192;

pub const STAMPS: usize = LEVELS_MOST;

pub const ROW: usize = STAMPS + CLASSES_MOST;

pub const COUNT: usize = ROW + 1;

pub const OWNER: usize = COUNT + 1;

pub const OWNER_X: usize = OWNER + 1;

pub const LOADS: usize = OWNER_X + 1;

pub const PAIRS: usize = LOADS + LEVELS_MOST;

// How many places there are.
pub const NOTES_MOST: usize = PAIRS + 2 * CLASSES_MOST;

// A row begins where no cell counts, of n: then no corner stands on it, so that it may begin again.
pub fn begin_row(notes: &mut [u32], n: usize)
    requires { NotesLow notes.old × (row_no notes.old < 4294967295) }
    ensures { Begun n notes.old notes.new }
{
    if n == 0 {
        notes[ROW] += 1;
        notes[COUNT] = 0;
        notes[OWNER] = MISSING;
    }
}

// K2: whether a corner of the class stands on the row at hand: then its port is suppressed.
pub fn has_class(notes: &[u32], class: u32) -> bool
    requires { (NOTES ≤ length notes.now) × (class < CLASSES) }
    ensures { result ≡ eqb (stamp_of notes.now class) (row_no notes.now) }
{
    notes[STAMPS + class as usize] == notes[ROW]
}
