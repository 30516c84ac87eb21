// `lay_mini_bus` for C and Rust: the answer as a struct of numbers.
ghost use Rattle.std.specs.Prelude.{◌≡◌, length};
ghost use Rattle.board_plan.specs.TextPlan.{work_rows};
ghost use Rattle.routes_gutter.specs.Calls.{bus_fits, BusCalled};
ghost use Rattle.routes_calls.specs.Mini.{mini_call};
ghost use Rattle.panzhyqur.specs.MiniCall.{mini_numbers};
ghost use Rattle.panzhyqur.specs.InNumbers.{InNumbers};

use crate::verdict::Verdict;
use base::refusal::Refusal;
use base::rows::{BusWireRow, PortRow, Record, RerouterRow, WorkRow};
use routes::bus::BusCounts;
use routes_calls::mini::lay_mini_bus;
use routes_gutter::laying::BusLaid;

// A refusal, or the bus that stands in the buffers.
#[repr(C)]
#[derive(Clone, Copy)]
pub struct MiniNumbers {
    pub verdict: Verdict,
    pub counts: BusCounts,
}

impl From<Result<BusLaid, Refusal>> for MiniNumbers {
    ghost from_gives = { λ plan numbers. numbers ≡ mini_numbers plan };

    fn from(plan: Result<BusLaid, Refusal>) -> MiniNumbers {
        match plan {
            Err(e) => MiniNumbers {
                verdict: Verdict::from(e),
                counts: BusCounts::default(),
            },
            Ok(laid) => MiniNumbers {
                verdict: Verdict::default(),
                counts: laid.bus,
            },
        }
    }
}

// Stays (C interface): C lends each buffer and each slice of work space by itself, so each is a parameter of its own.
#[unsafe(no_mangle)]
pub extern "C" fn pz_lay_mini_bus(
    text: &[u8],
    held: BusCounts,
    rerouters: &mut [RerouterRow],
    bus_wires: &mut [BusWireRow],
    ports: &mut [PortRow],
    records: &mut [Record],
    facts: &mut [WorkRow],
    taps: &mut [WorkRow],
    groups: &mut [WorkRow],
    demands: &mut [WorkRow],
    keys: &mut [WorkRow],
    marks: &mut [WorkRow],
) -> MiniNumbers
    ensures { InNumbers mini_numbers (BusCalled (mini_call text.now (bus_fits (length rerouters.old) (length bus_wires.old) (length ports.old) (work_rows records.old facts.old taps.old groups.old demands.old keys.old marks.old))
        rerouters.old bus_wires.old ports.old held)
        rerouters.old bus_wires.old ports.old rerouters.new bus_wires.new ports.new) result }
{
    MiniNumbers::from(lay_mini_bus(
        text, held, rerouters, bus_wires, ports, records, facts, taps, groups, demands, keys, marks,
    ))
}
