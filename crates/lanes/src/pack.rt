// Packing demands into lanes over key rows: rank by span and consumers, order, 0, index, first row, last row, consumers, lane.
ghost use Rattle.std.specs.Prelude.{◌≡◌, false, ℕ, ◌≤◌, ◌<◌, [], map, length, get_or, set};
ghost use Rattle.base.specs.Sort.{sorted_rows};
ghost use Rattle.lanes.specs.Lanes.{entries};
ghost use Rattle.lanes.specs.LaneCall.{demand_most, faulty, Sound};
ghost use Rattle.lanes.specs.Keys.{demand_in, demand_of, key_of, index_in, spread, Fitting, Seated};

use crate::table::{LANE_MOST, LaneTable};
use base::rows::WorkRow;
use base::sort::sort_rows;

// The most of a demand's rows, and of its consumers and order.
pub(crate) const ROW_MOST: u32 = 4095;

pub(crate) const COUNT_MOST: u32 = 8192;

// The demand at the index would open one lane too many.
#[derive(Clone, Copy, Debug, PartialEq, Eq)]
pub struct LanesFull {
    pub index: usize,
}

// What a group asks of the bus: its first and last row, its consumers, and its place in source order.
#[derive(Clone, Copy)]
pub(crate) struct BusDemand {
    pub first: u32,
    pub last: u32,
    pub consumers: u32,
    pub order: u32,
}

// The demand that four numbers are.
impl From<[u32; 4]> for BusDemand {
    ghost from_gives = { λ numbers d. demand_in d ≡ demand_of numbers };

    #[tactic(auto, unfolding(crate::specs::Keys::demand_of))]
    fn from(numbers: [u32; 4]) -> BusDemand {
        let [first, last, consumers, order] = numbers;
        BusDemand {
            first,
            last,
            consumers,
            order,
        }
    }
}

// L2: a demand's key row. Its rank counts down from the most, span before consumers, so that rows in rising order are demands as
// they are packed.
fn key_row(d: BusDemand, index: u32) -> WorkRow
    requires { faulty (demand_in d) ≡ false }
    ensures { result ≡ key_of (record { index = index; demand = demand_in d }) }
{
    [
        (ROW_MOST - (d.last - d.first)) * (COUNT_MOST + 1) + (COUNT_MOST - d.consumers),
        d.order,
        0,
        index,
        d.first,
        d.last,
        d.consumers,
        0,
    ]
}

// Writes each demand's key row: a demand is the first four numbers of its row.
// Stays (no plainer): a key row has its demand's number in it, so each turn counts, and the key goes to the place of that number.
fn write_keys<const N: usize>(demands: &[[u32; N]], keys: &mut [WorkRow])
    requires four { 4 ≤ N }
    requires keys_len { (length keys.old ≡ length demands.now) × (length keys.old ≤ demand_most) × Sound (map demand_of demands.now) }
    ensures { keys.new ≡ map key_of (entries 0 (map demand_of demands.now)) }
{
    for (i, row) in demands.iter().enumerate() {
        let demand = BusDemand::from([row[0], row[1], row[2], row[3]]);
        keys[i] = key_row(demand, i as u32);
    }
}

// Gives each key row in turn its lane, in its last column.
fn seat_keys(keys: &mut [WorkRow]) -> Result<usize, LanesFull>
    requires { Fitting keys.old }
    ensures { Seated keys.old keys.new result }
{
    let mut table = LaneTable {
        ends: [0; LANE_MOST],
        count: 0,
    };
    for key in keys.iter_mut() {
        let index = key[3] as usize;
        let taken = table.take_lane(key[4] as u16, key[5] as u16);
        key[7] = taken.seat.ok_or(LanesFull { index })?;
        // Behind the `?`, since a step that may still end here copies the table once more.
        table = taken.table;
    }
    Ok(table.count)
}

// Packs demands that are not faulty, by way of their key rows: where each has a lane, its key row holds it.
pub(crate) fn pack_demands<const N: usize>(
    demands: &[[u32; N]],
    keys: &mut [WorkRow],
    spare: &mut [WorkRow],
) -> Result<usize, LanesFull>
    requires four { 4 ≤ N }
    requires keys_len { (length keys.old ≡ length demands.now) × (length keys.old ≤ demand_most) × Sound (map demand_of demands.now) }
    requires spare_len { length keys.old ≤ length spare.old }
    ensures { Seated (sorted_rows (map key_of (entries 0 (map demand_of demands.now)))) keys.new result }
{
    write_keys(demands, keys);
    sort_rows(keys, spare);
    seat_keys(keys)
}

// Where a demand's lane goes.
pub(crate) trait Place {
    ghost with_lane: { Self → ℕ → Self };

    fn put_lane(&mut self, lane: u32)
        ensures { self.new ≡ with_lane self.old lane };
}

impl Place for u32 {
    ghost with_lane = { λ place lane. lane };

    fn put_lane(&mut self, lane: u32) {
        *self = lane;
    }
}

impl Place for WorkRow {
    ghost with_lane = { λ row lane. set row 4 lane };

    fn put_lane(&mut self, lane: u32) {
        self[4] = lane;
    }
}

// Puts each key row's lane to the place at its index.
pub(crate) fn put_lanes<P: Place>(keys: &[WorkRow], places: &mut [P])
    requires { (k : ℕ) → k < length keys.now → index_in (get_or keys.now k []) < length places.old }
    ensures { (none : P) → places.new ≡ spread P.with_lane none keys.now places.old }
{
    for key in keys {
        places[key[3] as usize].put_lane(key[7]);
    }
}
