// What turns a sheet or a call away: one reason, and the place that it gives.
ghost use Rattle.std.specs.Prelude.{◌≡◌};
ghost use Rattle.base.specs.Refusal.{number_of, refusal};

// The conditions under which nothing is written, in the order of their numbers.
#[derive(Clone, Copy, Debug, PartialEq, Eq)]
pub enum Reason {
    Unread,
    TooMany,
    OutOfRange,
    IdTaken,
    NotThere,
    Unplaced,
    NoRoom,
    NoLane,
    BadBox,
}

// A reason and its place: a line of the sheet counted from 1, or 0 where no line is meant.
// Stays (no plainer): rule E10 itself makes the place a number, 0 for E7 and E16, so an Option would only be taken apart where it is written.
#[derive(Clone, Copy, Debug, PartialEq, Eq)]
pub struct Refusal {
    pub reason: Reason,
    pub place: usize,
}

impl Reason {
    // The number that the E line and the calls for C give.
    pub fn number(self) -> usize
        ensures { result ≡ number_of self }
    {
        match self {
            Reason::Unread => 1,
            Reason::TooMany => 2,
            Reason::OutOfRange => 3,
            Reason::IdTaken => 4,
            Reason::NotThere => 5,
            Reason::Unplaced => 6,
            Reason::NoRoom => 7,
            Reason::NoLane => 8,
            Reason::BadBox => 9,
        }
    }

    // The refusal for this reason at a place.
    pub fn at(self, place: usize) -> Refusal
        ensures { result ≡ refusal self place }
    {
        Refusal {
            reason: self,
            place,
        }
    }
}
