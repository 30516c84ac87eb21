// The call for C and Rust: the answer as a struct of numbers.
ghost use Rattle.std.specs.Prelude.{◌≡◌, length};
ghost use Rattle.sheet.specs.Table.{library_most};
ghost use Rattle.board.specs.Planning.{planning, fits_pages, pages_after};
ghost use Rattle.board_plan.specs.TextPlan.{work_rows};
ghost use Rattle.board_plan.specs.PagesPlan.{plan_call, PagesPlanned};
ghost use Rattle.panzhyqur.specs.PlanCall.{pages_numbers};
ghost use Rattle.panzhyqur.specs.InNumbers.{InNumbers};

use crate::verdict::Verdict;
use base::refusal::Refusal;
use base::rows::{PageRow, Record, WorkRow};
use board_plan::plan_bus;

// A refusal, or how many pages have their answer.
#[repr(C)]
#[derive(Clone, Copy)]
pub struct PagesNumbers {
    pub verdict: Verdict,
    pub pages: usize,
}

impl From<Result<usize, Refusal>> for PagesNumbers {
    ghost from_gives = { λ plan numbers. numbers ≡ pages_numbers plan };

    fn from(plan: Result<usize, Refusal>) -> PagesNumbers {
        match plan {
            Err(e) => PagesNumbers {
                verdict: Verdict::from(e),
                pages: 0,
            },
            Ok(pages) => PagesNumbers {
                verdict: Verdict::default(),
                pages,
            },
        }
    }
}

// Stays (C interface): C lends each buffer and each slice of work space by itself, so each is a parameter of its own.
#[unsafe(no_mangle)]
pub extern "C" fn pz_plan_bus(
    text: &[u8],
    answers: &mut [PageRow],
    records: &mut [Record],
    facts: &mut [WorkRow],
    taps: &mut [WorkRow],
    groups: &mut [WorkRow],
    demands: &mut [WorkRow],
    keys: &mut [WorkRow],
    marks: &mut [WorkRow],
) -> PagesNumbers
    ensures { InNumbers pages_numbers (PagesPlanned (plan_call text.now (length answers.old) (work_rows records.old facts.old taps.old groups.old demands.old keys.old marks.old))
        answers.old answers.new) result }
{
    PagesNumbers::from(plan_bus(
        text, answers, records, facts, taps, groups, demands, keys, marks,
    ))
}
