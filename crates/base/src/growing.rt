// Runs side by side that are filled as one goes: the values of a key stand one behind the other, so that a question walks them without a jump. Where the run
// of each key starts is known before, by counting and summing up; the next free place of each is kept.
ghost use Rattle.std.specs.Prelude.{◌<◌, length, get_or};
ghost use Rattle.base.specs.Growing.{Put};

use crate::runs::take_one;

// Puts x behind what the run of key k holds.
pub fn put<T: Copy>(nexts: &mut [u32], xs: &mut [T], k: usize, x: T)
    requires { (k < length nexts.old) × (get_or nexts.old k 0 < length xs.old) × (length xs.old < 4294967296) }
    ensures { Put k x nexts.old xs.old nexts.new xs.new }
{
    xs[take_one(nexts, k)] = x;
}
