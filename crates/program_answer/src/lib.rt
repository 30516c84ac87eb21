// `answer`: sheet bytes in, the plan sheet's bytes or the E line out.
#![tactic(auto)]

use base::rows::{BusWireRow, PageRow, PortRow, Record, RerouterRow, WorkRow};

pub mod calls;

ghost use Rattle.std.specs.Prelude.{List, length};
ghost use Rattle.sheet.specs.Written.{Wrote};
ghost use Rattle.board.specs.Board.{Board};
ghost use Rattle.board.specs.Demands.{PageLanes};
ghost use Rattle.board.specs.Walk.{WithinLibrary};
ghost use Rattle.board_plan.specs.TextPlan.{work_rows};
ghost use Rattle.routes.specs.Plan.{finished, laid_groups};
ghost use Rattle.routes.specs.PlanSheet.{plan_sheet};
ghost use Rattle.program_answer.specs.Answering.{LineTold, Answered, answer_lent, answer_call};
ghost use Rattle.program_answer.specs.Telling.{PlanThere};

use board_plan::{Asked, LINE_MOST, Lent, shortest_of, work_lengths};
use routes_calls::route::{PlanLaid, route_within};
use routes_plan_sheet::plan_sheet::{PlanRows, put_refusal};
use routes_plan_sheet::write_plan;
use sheet::Counts;

// The greatest number that an E line holds.
const TOLD_MOST: usize = 4_294_967_294;

// S16, E12: the E line, and how many bytes it has; nothing where there is no room for a line, or where its number or its place is above the greatest that it holds.
pub fn tell_refusal(out: &mut [u8], number: usize, place: usize) -> Option<usize>
    ensures { LineTold number place out.old out.new result }
{
    if out.len() < LINE_MOST {
        return None;
    }
    if TOLD_MOST < number {
        return None;
    }
    if TOLD_MOST < place {
        return None;
    }
    Some(put_refusal(out, 0, number as u32, place as u32))
}

// The plan sheet of a finished plan that stands in front of the buffers: how many bytes it has.
fn tell_plan(
    plan: PlanLaid,
    out: &mut [u8],
    answers: &[PageRow],
    rerouters: &[RerouterRow],
    bus_wires: &[BusWireRow],
    ports: &[PortRow],
) -> usize
    requires { (b : Board) × (ps : List PageLanes) × PlanThere b ps plan answers.now rerouters.now bus_wires.now ports.now (length out.old) }
    ensures { (b : Board) (ps : List PageLanes) → PlanThere b ps plan answers.now rerouters.now bus_wires.now ports.now (length out.old)
        → Wrote out.old 0 (plan_sheet b ps (finished b ps) (laid_groups b ps)) out.new result }
{
    let bus = plan.laid.bus;
    let rows = PlanRows {
        pages: &answers[..plan.counts.pages],
        rerouters: &rerouters[..bus.rerouters],
        bus_wires: &bus_wires[..bus.bus_wires],
        ports: &ports[..bus.ports],
    };
    write_plan(out, rows, plan.counts.wires, plan.laid.groups)
}

// The text that answers a sheet of which at most `most` records are taken, and the plan in the four buffers. How many bytes it has comes back, or nothing where not
// even an E line is told. Each slice of work space has a row for each record, the marks five.
// Stays (C interface): C lends each buffer and each slice of work space by itself; one struct of them all would tell what it left by nested pairs.
pub fn answer_within(
    text: &[u8],
    most: Counts,
    out: &mut [u8],
    rerouters: &mut [RerouterRow],
    bus_wires: &mut [BusWireRow],
    ports: &mut [PortRow],
    answers: &mut [PageRow],
    records: &mut [Record],
    facts: &mut [WorkRow],
    taps: &mut [WorkRow],
    groups: &mut [WorkRow],
    demands: &mut [WorkRow],
    keys: &mut [WorkRow],
    marks: &mut [WorkRow],
) -> Option<usize>
    requires { WithinLibrary most }
    ensures { Answered (answer_call most text.now (answer_lent (length rerouters.old) (length bus_wires.old) (length ports.old) (length answers.old) (length out.old) (work_rows records.old facts.old taps.old groups.old demands.old keys.old marks.old)))
        out.old rerouters.old bus_wires.old ports.old answers.old out.new rerouters.new bus_wires.new ports.new answers.new result }
{
    let work = shortest_of(work_lengths(records, facts, taps, groups, demands, keys, marks));
    let lent = Lent {
        rerouters: rerouters.len(),
        bus_wires: bus_wires.len(),
        ports: ports.len(),
        answers: answers.len(),
        work,
        out: out.len(),
    };
    let asked = Asked { most, lent };
    match route_within(
        text, asked, rerouters, bus_wires, ports, answers, records, facts, taps, groups, demands,
        keys, marks,
    ) {
        Err(refusal) => tell_refusal(out, refusal.reason.number(), refusal.place),
        Ok(plan) => Some(tell_plan(plan, out, answers, rerouters, bus_wires, ports)),
    }
}
