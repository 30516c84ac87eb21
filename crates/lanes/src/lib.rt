// Lanes of a page's gutter (`layout/bus.rs`, `allocate_lanes`): demands in the order of L2, each into its lane by L3. Here is the lane call
// with its refusals; `pack` has the packing, `rows` the same over a table's rows and `table` the lane table.
#![tactic(auto)]

use base::rows::WorkRow;

pub mod pack;
pub mod rows;
pub mod table;

ghost use Rattle.std.specs.Prelude.{◌≡◌, length};
ghost use Rattle.std.specs.List.{position};
ghost use Rattle.lanes.specs.LaneCall.{faulty, report_of, Answered};
ghost use Rattle.lanes.specs.Keys.{demand_in, demand_of};
ghost use Rattle.lanes.specs.declared.LaneError.{LaneError};

use pack::{BusDemand, COUNT_MOST, LanesFull, ROW_MOST, pack_demands, put_lanes};

// The most demands of one call.
pub const DEMAND_MOST: usize = 8192;

// Why the lane call turns a list away, with the index of the demand at fault where there is one.
#[derive(Clone, Copy, Debug, PartialEq, Eq)]
pub enum LaneError {
    Incomplete(usize),
    TooMany,
    OutOfRange(usize),
    NoRoom,
    NoLane(usize),
}

impl From<LanesFull> for LaneError {
    ghost from_gives = { λ full e. e ≡ LaneError.NoLane full.index };

    fn from(full: LanesFull) -> LaneError {
        LaneError::NoLane(full.index)
    }
}

// The answer as numbers: the refusal's, 0 for none, its place, and the count of lanes.
// Stays (C interface): C callers read it so.
#[repr(C)]
#[derive(Clone, Copy)]
pub struct LaneReport {
    pub refusal: usize,
    pub place: usize,
    pub count: usize,
}

// Stays (no plainer): the numbers are those of E15, which mean other conditions than the same numbers of E1 to E8, so they are no `Reason`.
impl From<Result<usize, LaneError>> for LaneReport {
    ghost from_gives = { λ answer report. report ≡ report_of answer };

    fn from(answer: Result<usize, LaneError>) -> LaneReport {
        let (refusal, place, count) = match answer {
            Ok(count) => (0, 0, count),
            Err(LaneError::Incomplete(i)) => (1, i, 0),
            Err(LaneError::TooMany) => (2, DEMAND_MOST, 0),
            Err(LaneError::OutOfRange(i)) => (3, i, 0),
            Err(LaneError::NoRoom) => (7, 0, 0),
            Err(LaneError::NoLane(i)) => (8, i, 0),
        };
        LaneReport {
            refusal,
            place,
            count,
        }
    }
}

// Whether a number is out of range, or the last row is under the first.
#[tactic(auto, unfolding(crate::specs::LaneCall::faulty))]
fn is_faulty(d: BusDemand) -> bool
    ensures { result ≡ faulty (demand_in d) }
{
    ROW_MOST < d.first
        || ROW_MOST < d.last
        || COUNT_MOST < d.consumers
        || COUNT_MOST < d.order
        || d.last < d.first
}

// The index of the first faulty demand.
fn first_fault(demands: &[[u32; 4]]) -> Option<usize>
    ensures { result ≡ position (λ row. faulty (demand_of row)) demands.now }
{
    demands
        .iter()
        .position(|row| is_faulty(BusDemand::from(*row)))
}

// The lane call. The list has four numbers a demand: first row, last row, consumers, order. Each demand's lane goes to the
// lane answers, in the given order, and the call tells how many lanes there are. `work` and `spare` are a row a demand each.
pub fn allocate_lanes(
    demands: &[u32],
    lanes: &mut [u32],
    work: &mut [WorkRow],
    spare: &mut [WorkRow],
) -> Result<usize, LaneError>
    ensures { Answered demands.now lanes.old lanes.new (length work.old) (length spare.old) (report_of result) }
{
    let (rows, rest) = demands.as_chunks::<4>();
    let n = rows.len();
    if !rest.is_empty() {
        return Err(LaneError::Incomplete(n));
    }
    if DEMAND_MOST < n {
        return Err(LaneError::TooMany);
    }
    if let Some(i) = first_fault(rows) {
        return Err(LaneError::OutOfRange(i));
    }
    if lanes.len() < n || work.len() < n || spare.len() < n {
        return Err(LaneError::NoRoom);
    }
    let keys = &mut work[..n];
    let count = pack_demands(rows, keys, spare)?;
    put_lanes(keys, lanes);
    Ok(count)
}
