// The calls for C and Rust: the answer as a struct of numbers.
ghost use Rattle.std.specs.Prelude.{◌≡◌, length};
ghost use Rattle.board_plan.specs.TextPlan.{work_rows};
ghost use Rattle.routes_gutter.specs.Calls.{bus_fits, lay_call, BusCalled};
ghost use Rattle.panzhyqur.specs.BusCalls.{plan_numbers};
ghost use Rattle.panzhyqur.specs.InNumbers.{InNumbers};
ghost use Rattle.routes_calls.specs.Route.{plan_fits, route_call, PlanCalled};

use crate::verdict::Verdict;
use base::refusal::Refusal;
use base::rows::{BusWireRow, PageRow, PortRow, Record, RerouterRow, WorkRow};
use routes_calls::route::route;
use routes_gutter::bus::lay_bus;
use routes_gutter::laying::BusLaid;

// A refusal, or the bus that stands in the buffers and how many groups it was laid for.
// Stays (C interface): one struct for each answer, since what crosses to C has no type parameters.
#[repr(C)]
#[derive(Clone, Copy)]
pub struct PlanNumbers {
    pub verdict: Verdict,
    pub laid: BusLaid,
}

impl From<Result<BusLaid, Refusal>> for PlanNumbers {
    ghost from_gives = { λ plan numbers. numbers ≡ plan_numbers plan };

    fn from(plan: Result<BusLaid, Refusal>) -> PlanNumbers {
        match plan {
            Err(e) => PlanNumbers {
                verdict: Verdict::from(e),
                laid: BusLaid::default(),
            },
            Ok(laid) => PlanNumbers {
                verdict: Verdict::default(),
                laid,
            },
        }
    }
}

// Stays (C interface): C lends each buffer and each slice of work space by itself, so each is a parameter of its own.
#[unsafe(no_mangle)]
pub extern "C" fn pz_lay_bus(
    text: &[u8],
    rerouters: &mut [RerouterRow],
    bus_wires: &mut [BusWireRow],
    ports: &mut [PortRow],
    records: &mut [Record],
    facts: &mut [WorkRow],
    taps: &mut [WorkRow],
    groups: &mut [WorkRow],
    demands: &mut [WorkRow],
    keys: &mut [WorkRow],
    marks: &mut [WorkRow],
) -> PlanNumbers
    ensures { InNumbers plan_numbers (BusCalled (lay_call text.now (bus_fits (length rerouters.old) (length bus_wires.old) (length ports.old) (work_rows records.old facts.old taps.old groups.old demands.old keys.old marks.old)))
        rerouters.old bus_wires.old ports.old rerouters.new bus_wires.new ports.new) result }
{
    PlanNumbers::from(lay_bus(
        text, rerouters, bus_wires, ports, records, facts, taps, groups, demands, keys, marks,
    ))
}

#[unsafe(no_mangle)]
pub extern "C" fn pz_route(
    text: &[u8],
    rerouters: &mut [RerouterRow],
    bus_wires: &mut [BusWireRow],
    ports: &mut [PortRow],
    answers: &mut [PageRow],
    records: &mut [Record],
    facts: &mut [WorkRow],
    taps: &mut [WorkRow],
    groups: &mut [WorkRow],
    demands: &mut [WorkRow],
    keys: &mut [WorkRow],
    marks: &mut [WorkRow],
) -> PlanNumbers
    ensures { InNumbers plan_numbers (PlanCalled (route_call text.now (plan_fits (length rerouters.old) (length bus_wires.old) (length ports.old) (length answers.old) (work_rows records.old facts.old taps.old groups.old demands.old keys.old marks.old)))
        rerouters.old bus_wires.old ports.old answers.old rerouters.new bus_wires.new ports.new answers.new) result }
{
    PlanNumbers::from(route(
        text, rerouters, bus_wires, ports, answers, records, facts, taps, groups, demands, keys,
        marks,
    ))
}
