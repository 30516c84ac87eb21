// Levels: how far apart they are, and how many there are up to a top.
ghost use Rattle.std.specs.Prelude.{◌≡◌};
ghost use Rattle.routes.specs.Stops.{near};
ghost use Rattle.routes.specs.Levels.{STAGGER_STEP, levels_in};

use base::numbers::REROUTER_SIZE;

// Levels go upward by this: a rerouter apart.
pub const STAGGER_STEP: u32 = REROUTER_SIZE;

// T4: whether two x are less than 2 apart.
pub fn is_near(x: u32, p: u32) -> bool
    ensures { result ≡ near x p }
{
    x.abs_diff(p) < REROUTER_SIZE
}

// V3: how many levels there are from a base up to a top.
pub fn levels_in(base: u32, top: u32) -> u32
    ensures { result ≡ levels_in base top }
{
    top.saturating_sub(base) / STAGGER_STEP
}
