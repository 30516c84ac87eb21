// The lane table of a page.
ghost use Rattle.std.specs.Prelude.{◌≡◌, false, ◌≤◌, length, ltb};
ghost use Rattle.std.specs.List.{position};
ghost use Rattle.lanes.specs.Lanes.{lane_most, lane_for};
ghost use Rattle.lanes.specs.Table.{NoneBefore, TookLane};

// The most lanes that a page has.
pub const LANE_MOST: usize = 512;

// The lanes that are asked at once.
const AT_ONCE: usize = 8;

// The last row of each open lane's latest tenant, and how many lanes are open. Rows go to 4,095, so an entry has 16 bits: by the form that document 01 names, each
// step takes the table and hands it back, which copies it.
#[derive(Drop)]
pub(crate) struct LaneTable {
    pub ends: [u16; LANE_MOST],
    pub count: usize,
}

// The table handed back, with the demand's lane, or none where the table has no more.
#[derive(Drop)]
pub(crate) struct Taken {
    pub table: LaneTable,
    pub seat: Option<u32>,
}

// Whether one of the lanes ends before `first`.
// Stays (slower): it asks of all of them, so that the compiler compares several at once, where `any` stops at the first.
fn any_before(ends: &[u16], first: u16) -> bool
    ensures { result ≡ false → NoneBefore first ends.now }
{
    let mut some = false;
    for end in ends {
        some |= *end < first;
    }
    some
}

// The first lane that ends before `first`.
fn first_before(ends: &[u16], first: u16) -> Option<usize>
    ensures { result ≡ position (λ end. ltb end first) ends.now }
{
    ends.iter().position(|end| *end < first)
}

// The lowest of the open lanes whose latest tenant ends before `first`, or their count. Lanes are passed eight at a time.
// Stays (slower): `position` over all of them asks of one lane at a time.
// Stays (no plainer): `board_lanes` passes its marks likewise, by another test of another number; one function over a closure would have to say in its contract
// that the closure answers alike at every call.
fn lowest_lane(ends: &[u16], first: u16) -> usize
    ensures { result ≡ lane_for first ends.now }
{
    let count = ends.len();
    let mut passed: usize = 0;
    while passed + AT_ONCE <= count && !any_before(&ends[passed..passed + AT_ONCE], first) {
        passed += AT_ONCE;
    }
    match first_before(&ends[passed..], first) {
        Some(l) => passed + l,
        None => count,
    }
}

impl LaneTable {
    // One packing step.
    pub(crate) fn take_lane(mut self, first: u16, last: u16) -> Taken
        requires { self.count ≤ lane_most }
        ensures { TookLane self first last result }
    {
        let l = lowest_lane(&self.ends[..self.count], first);
        if LANE_MOST <= l {
            return Taken {
                table: self,
                seat: None,
            };
        }
        self.ends[l] = last;
        self.count = self.count.max(l + 1);
        Taken {
            table: self,
            seat: Some(l as u32),
        }
    }
}
