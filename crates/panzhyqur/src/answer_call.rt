// The call for C and Rust: the answer as a number.
ghost use Rattle.std.specs.Prelude.{length};
ghost use Rattle.board_plan.specs.TextPlan.{work_rows};
ghost use Rattle.sheet.specs.Table.{library_most};
ghost use Rattle.program_answer.specs.Answering.{Answered, answer_lent, answer_call};
ghost use Rattle.panzhyqur.specs.AnswerCall.{answer_number};
ghost use Rattle.panzhyqur.specs.InNumbers.{InNumbers};

use base::rows::{BusWireRow, PageRow, PortRow, Record, RerouterRow, WorkRow};
use program_answer::calls::answer;

// How many bytes were written. Every plan sheet and every E line has some.
// Stays (C interface): C has no `Option`, so 0 stands for none; and it lends each buffer and each slice of work space by itself, so each is a parameter of its own.
#[unsafe(no_mangle)]
pub extern "C" fn pz_answer(
    text: &[u8],
    out: &mut [u8],
    rerouters: &mut [RerouterRow],
    bus_wires: &mut [BusWireRow],
    ports: &mut [PortRow],
    answers: &mut [PageRow],
    records: &mut [Record],
    facts: &mut [WorkRow],
    taps: &mut [WorkRow],
    groups: &mut [WorkRow],
    demands: &mut [WorkRow],
    keys: &mut [WorkRow],
    marks: &mut [WorkRow],
) -> usize
    ensures { InNumbers answer_number (Answered (answer_call library_most text.now (answer_lent (length rerouters.old) (length bus_wires.old) (length ports.old) (length answers.old) (length out.old) (work_rows records.old facts.old taps.old groups.old demands.old keys.old marks.old)))
        out.old rerouters.old bus_wires.old ports.old answers.old out.new rerouters.new bus_wires.new ports.new answers.new) result }
{
    answer(
        text, out, rerouters, bus_wires, ports, answers, records, facts, taps, groups, demands,
        keys, marks,
    )
    .unwrap_or(0)
}
