// A stop's level, and how a stop's row says it.
ghost use Rattle.std.specs.Prelude.{◌≡◌};
ghost use Rattle.board.specs.Index.{found_of};
ghost use Rattle.routes.specs.Levels.{kept_at, is_own};
ghost use Rattle.routes.specs.Holding.{stop_level_of};

use base::rows::WorkRow;

// Stays (C interface): stops are rows of numbers, in work space that the caller lends.
// How a stop's row says that it has its level: not at all, from the last kept stop, or its own. Any other number says its own too.
pub const KIND_DROPPED: u32 = 0;

pub const KIND_SHARED: u32 = 1;

pub const KIND_OWN: u32 = 2;

// A stop's level: none, that of the group's last kept stop, or one of its own.
#[derive(Clone, Copy)]
pub enum Level {
    Dropped,
    Shared(u32),
    Own(u32),
}

impl Level {
    // The level that a stop is kept at, or none.
    pub fn kept(self) -> Option<u32>
        ensures { result ≡ found_of (kept_at (stop_level_of self)) }
    {
        match self {
            Level::Dropped => None,
            Level::Shared(level) | Level::Own(level) => Some(level),
        }
    }

    // Whether the level is the stop's own.
    pub fn is_own(self) -> bool
        ensures { result ≡ is_own (stop_level_of self) }
    {
        matches!(self, Level::Own(_))
    }
}

// The level in a stop's row.
impl From<WorkRow> for Level {
    ghost use Rattle.routes.specs.Tables.{stop_in};

    ghost from_gives = { λ stop level. stop_level_of level ≡ (stop_in stop).level };

    fn from(stop: WorkRow) -> Level {
        match stop[6] {
            KIND_DROPPED => Level::Dropped,
            KIND_SHARED => Level::Shared(stop[5]),
            _ => Level::Own(stop[5]),
        }
    }
}

// A level as a stop's row has it, in columns 5 and 6: its number and its kind.
impl From<Level> for [u32; 2] {
    ghost use Rattle.std.specs.Prelude.{get_or};
    ghost use Rattle.routes.specs.Tables.{level_in};

    ghost from_gives = { λ level row. level_in (get_or row 1 0) (get_or row 0 0) ≡ stop_level_of level };

    fn from(level: Level) -> [u32; 2] {
        match level {
            Level::Dropped => [0, KIND_DROPPED],
            Level::Shared(level) => [level, KIND_SHARED],
            Level::Own(level) => [level, KIND_OWN],
        }
    }
}
