// The calls: at the library's limits, at the program's, and at the program's with work space of its own.
ghost use Rattle.std.specs.Prelude.{length};
ghost use Rattle.sheet.specs.Table.{library_most};
ghost use Rattle.board_plan.specs.TextPlan.{work_rows};
ghost use Rattle.program_answer.specs.Answering.{Told, Answered, answer_lent, answer_call, program_call, program_lent};

use crate::{answer_within, tell_refusal};
use base::refusal::Reason;
use base::rows::{BusWireRow, PageRow, PortRow, Record, RerouterRow, WorkRow};
use board_plan::{BUS_WIRES_PER_WIRE, LINE_MOST, LINES_PER_WIRE, MARK_ROWS, REROUTERS_PER_WIRE};
use sheet::{library_most, program_most};

// The most bytes of input that the program takes.
pub const INPUT_MOST: usize = 65_536;

// S12: the most wires, pages and records of a board that the program takes.
// Stays (no plainer): the length of an array is a constant, and a constant cannot call `program_most`.
const WIRES: usize = 56;

const PAGES: usize = 8;

const RECORDS: usize = 168;

// Bytes of text for the largest plan of such a board: a line for each page, twelve for each wire, and the last line.
pub const PLAN_MOST: usize = LINE_MOST * (PAGES + LINES_PER_WIRE * WIRES + 1);

// The answer to a sheet at the library's limits.
// Stays (C interface): C lends each buffer and each slice of work space by itself; one struct of them all would tell what it left by nested pairs.
pub fn answer(
    text: &[u8],
    out: &mut [u8],
    rerouters: &mut [RerouterRow],
    bus_wires: &mut [BusWireRow],
    ports: &mut [PortRow],
    answers: &mut [PageRow],
    records: &mut [Record],
    facts: &mut [WorkRow],
    taps: &mut [WorkRow],
    groups: &mut [WorkRow],
    demands: &mut [WorkRow],
    keys: &mut [WorkRow],
    marks: &mut [WorkRow],
) -> Option<usize>
    ensures { Answered (answer_call library_most text.now (answer_lent (length rerouters.old) (length bus_wires.old) (length ports.old) (length answers.old) (length out.old) (work_rows records.old facts.old taps.old groups.old demands.old keys.old marks.old)))
        out.old rerouters.old bus_wires.old ports.old answers.old out.new rerouters.new bus_wires.new ports.new answers.new result }
{
    answer_within(
        text,
        library_most(),
        out,
        rerouters,
        bus_wires,
        ports,
        answers,
        records,
        facts,
        taps,
        groups,
        demands,
        keys,
        marks,
    )
}

// E13: the answer to the program's input, of which the length is tested first.
pub fn answer_for_program(
    text: &[u8],
    out: &mut [u8],
    rerouters: &mut [RerouterRow],
    bus_wires: &mut [BusWireRow],
    ports: &mut [PortRow],
    answers: &mut [PageRow],
    records: &mut [Record],
    facts: &mut [WorkRow],
    taps: &mut [WorkRow],
    groups: &mut [WorkRow],
    demands: &mut [WorkRow],
    keys: &mut [WorkRow],
    marks: &mut [WorkRow],
) -> Option<usize>
    ensures { Answered (program_call text.now (answer_lent (length rerouters.old) (length bus_wires.old) (length ports.old) (length answers.old) (length out.old) (work_rows records.old facts.old taps.old groups.old demands.old keys.old marks.old)))
        out.old rerouters.old bus_wires.old ports.old answers.old out.new rerouters.new bus_wires.new ports.new answers.new result }
{
    if INPUT_MOST < text.len() {
        return tell_refusal(out, Reason::TooMany.number(), 0);
    }
    answer_within(
        text,
        program_most(),
        out,
        rerouters,
        bus_wires,
        ports,
        answers,
        records,
        facts,
        taps,
        groups,
        demands,
        keys,
        marks,
    )
}

// The same with as much of all else as the largest board that the program takes asks for: given PLAN_MOST bytes it never answers 7 (`program_fits`).
pub fn respond(text: &[u8], out: &mut [u8]) -> Option<usize>
    ensures { Told (program_call text.now (program_lent (length out.old))) out.old out.new result }
{
    let mut rerouters: [RerouterRow; REROUTERS_PER_WIRE * WIRES] = [[0; 11]; REROUTERS_PER_WIRE
        * WIRES];
    let mut bus_wires: [BusWireRow; BUS_WIRES_PER_WIRE * WIRES] = [[0; 6]; BUS_WIRES_PER_WIRE
        * WIRES];
    let mut ports: [PortRow; WIRES] = [[0; 2]; WIRES];
    let mut answers: [PageRow; PAGES] = [[0; 2]; PAGES];
    let mut records: [Record; RECORDS] = [[0; 16]; RECORDS];
    let mut facts: [WorkRow; RECORDS] = [[0; 8]; RECORDS];
    let mut taps: [WorkRow; RECORDS] = [[0; 8]; RECORDS];
    let mut groups: [WorkRow; RECORDS] = [[0; 8]; RECORDS];
    let mut demands: [WorkRow; RECORDS] = [[0; 8]; RECORDS];
    let mut keys: [WorkRow; RECORDS] = [[0; 8]; RECORDS];
    let mut marks: [WorkRow; MARK_ROWS * RECORDS] = [[0; 8]; MARK_ROWS * RECORDS];
    answer_for_program(
        text,
        out,
        &mut rerouters,
        &mut bus_wires,
        &mut ports,
        &mut answers,
        &mut records,
        &mut facts,
        &mut taps,
        &mut groups,
        &mut demands,
        &mut keys,
        &mut marks,
    )
}
