// How a refusal stands in an answer for C.
ghost use Rattle.std.specs.Prelude.{◌≡◌};
ghost use Rattle.panzhyqur.specs.Verdict.{verdict_of};

use base::refusal::Refusal;

// What each answer begins with: the refusal's number and its place.
// Stays (C interface): C has no `Result`: where nothing is refused both are 0, and where something is, all that follows is 0.
#[repr(C)]
#[derive(Clone, Copy, Default)]
pub struct Verdict {
    pub refusal: usize,
    pub place: usize,
}

impl From<Refusal> for Verdict {
    ghost from_gives = { λ e verdict. verdict ≡ verdict_of e };

    fn from(e: Refusal) -> Verdict {
        Verdict {
            refusal: e.reason.number(),
            place: e.place,
        }
    }
}
