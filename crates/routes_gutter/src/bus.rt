// `lay_bus`: the rerouters and bus wires of the lanes, and the ports that their deliveries suppress.
ghost use Rattle.std.specs.Prelude.{length};
ghost use Rattle.board_plan.specs.TextPlan.{work_rows};
ghost use Rattle.routes_gutter.specs.Calls.{bus_fits, lay_call, BusCalled};

use crate::laying::{BusLaid, lay_and_settle};
use base::refusal::Refusal;
use base::rows::{BusWireRow, PortRow, Record, RerouterRow, WorkRow};
use board::sections::cut_sections;
use board_plan::{ANSWERS_MOST, ask, plan_text, work_lengths};

// The lanes of a sheet's board, laid, or a refusal. Each slice of work space has a row for each record, the marks five.
// Stays (C interface): each slice of work space and each buffer that C lends goes by itself, here and below.
pub fn lay_bus(
    text: &[u8],
    rerouters: &mut [RerouterRow],
    bus_wires: &mut [BusWireRow],
    ports: &mut [PortRow],
    records: &mut [Record],
    facts: &mut [WorkRow],
    taps: &mut [WorkRow],
    groups: &mut [WorkRow],
    demands: &mut [WorkRow],
    keys: &mut [WorkRow],
    marks: &mut [WorkRow],
) -> Result<BusLaid, Refusal>
    ensures { BusCalled (lay_call text.now (bus_fits (length rerouters.old) (length bus_wires.old) (length ports.old)
        (work_rows records.old facts.old taps.old groups.old demands.old keys.old marks.old)))
        rerouters.old bus_wires.old ports.old rerouters.new bus_wires.new ports.new result }
{
    let work = work_lengths(records, facts, taps, groups, demands, keys, marks);
    let asked = ask(
        [rerouters.len(), bus_wires.len(), ports.len(), ANSWERS_MOST],
        work,
    );
    let planned = plan_text(
        text, asked, records, facts, taps, groups, demands, keys, marks,
    )?;
    let m = planned.taps?;
    let s = cut_sections(records, planned.counts);
    Ok(lay_and_settle(
        s,
        facts,
        &mut taps[..m],
        groups,
        demands,
        keys,
        marks,
        rerouters,
        bus_wires,
        ports,
    ))
}
