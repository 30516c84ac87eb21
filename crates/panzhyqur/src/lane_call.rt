// The lane call for C and Rust.
ghost use Rattle.std.specs.Prelude.{length};
ghost use Rattle.lanes.specs.LaneCall.{Answered};

use base::rows::WorkRow;
use lanes::{LaneReport, allocate_lanes};

#[unsafe(no_mangle)]
pub extern "C" fn pz_allocate_lanes(
    demands: &[u32],
    lanes: &mut [u32],
    work: &mut [WorkRow],
    spare: &mut [WorkRow],
) -> LaneReport
    ensures { Answered demands.now lanes.old lanes.new (length work.old) (length spare.old) result }
{
    LaneReport::from(allocate_lanes(demands, lanes, work, spare))
}
