// `find_hits` for C and Rust: the answer as a struct of numbers.
ghost use Rattle.std.specs.Prelude.{◌≡◌, length};
ghost use Rattle.board_plan.specs.TextPlan.{work_rows};
ghost use Rattle.routes_hits.specs.Finding.{hits_fit, hits_call, HitsCalled};
ghost use Rattle.panzhyqur.specs.HitsCall.{hits_numbers};
ghost use Rattle.panzhyqur.specs.InNumbers.{InNumbers};

use crate::verdict::Verdict;
use base::refusal::Refusal;
use base::rows::{BusWireRow, PageRow, PortRow, Record, RerouterRow, WorkRow};
use routes_hits::boxes::PageBox;
use routes_hits::find::{HitsFound, find_hits};

// A refusal, or how many rerouters and bus wires are hit, the bus that stands in the buffers and how many groups it was laid for.
#[repr(C)]
#[derive(Clone, Copy)]
pub struct HitsNumbers {
    pub verdict: Verdict,
    pub found: HitsFound,
}

impl From<Result<HitsFound, Refusal>> for HitsNumbers {
    ghost from_gives = { λ answer numbers. numbers ≡ hits_numbers answer };

    fn from(answer: Result<HitsFound, Refusal>) -> HitsNumbers {
        match answer {
            Err(e) => HitsNumbers {
                verdict: Verdict::from(e),
                found: HitsFound::default(),
            },
            Ok(found) => HitsNumbers {
                verdict: Verdict::default(),
                found,
            },
        }
    }
}

// Stays (C interface): C lends each buffer and each slice of work space by itself, so each is a parameter of its own.
#[unsafe(no_mangle)]
pub extern "C" fn pz_find_hits(
    text: &[u8],
    q: PageBox,
    hits: &mut [u32],
    rerouters: &mut [RerouterRow],
    bus_wires: &mut [BusWireRow],
    ports: &mut [PortRow],
    answers: &mut [PageRow],
    records: &mut [Record],
    facts: &mut [WorkRow],
    taps: &mut [WorkRow],
    groups: &mut [WorkRow],
    demands: &mut [WorkRow],
    keys: &mut [WorkRow],
    marks: &mut [WorkRow],
) -> HitsNumbers
    ensures { InNumbers hits_numbers (HitsCalled q (hits_call q text.now (hits_fit (length hits.old) (length rerouters.old) (length bus_wires.old) (length ports.old) (length answers.old)
        (work_rows records.old facts.old taps.old groups.old demands.old keys.old marks.old)))
        hits.old rerouters.old bus_wires.old ports.old answers.old hits.new rerouters.new bus_wires.new ports.new answers.new) result }
{
    HitsNumbers::from(find_hits(
        text, q, hits, rerouters, bus_wires, ports, answers, records, facts, taps, groups, demands,
        keys, marks,
    ))
}
