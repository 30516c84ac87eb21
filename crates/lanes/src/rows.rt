// The row form: demands in the first four columns of a table's rows, their lanes into the fifth. The other columns are left alone.
ghost use Rattle.std.specs.Prelude.{map, ◌≤◌, length};
ghost use Rattle.lanes.specs.LaneCall.{demand_most, Sound};
ghost use Rattle.lanes.specs.Keys.{demand_of, PackedRows};

use crate::pack::{LanesFull, pack_demands, put_lanes};
use base::rows::WorkRow;

// Packs demands that are not faulty: row i has its first row, last row, consumers and order in columns 0 to 3. Where each has a
// lane it goes to column 4; else the rows are as they were. `keys` and `spare` are work space of a row a demand each.
pub fn pack_rows(
    demands: &mut [WorkRow],
    keys: &mut [WorkRow],
    spare: &mut [WorkRow],
) -> Result<usize, LanesFull>
    requires demands_len_bound { (length demands.old ≤ demand_most) × Sound (map demand_of demands.old) }
    requires demands_in_bounds { (length demands.old ≤ length keys.old) × (length demands.old ≤ length spare.old) }
    ensures { PackedRows demands.old demands.new result }
{
    let keys = &mut keys[..demands.len()];
    let count = pack_demands(demands, keys, spare)?;
    put_lanes(keys, demands);
    Ok(count)
}
