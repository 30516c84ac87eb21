// `find_hits`: a sheet's board is planned; where the box is on the board (9, after 8) its plan is laid, and the hits are listed.
ghost use Rattle.std.specs.Prelude.{◌≡◌, length, Ok};
ghost use Rattle.board_plan.specs.TextPlan.{work_rows};
ghost use Rattle.routes_hits.specs.Boxing.{box_plan};
ghost use Rattle.routes_hits.specs.Finding.{hits_fit, hits_call, HitsCalled};

use crate::boxes::{PageBox, is_on_board};
use crate::list::{HitCounts, list_hits};
use base::refusal::{Reason, Refusal};
use base::rows::{BusWireRow, PageRow, PortRow, Record, RerouterRow, WorkRow};
use board::sections::cut_sections;
use board_plan::{TextPlan, ask, plan_text, work_lengths};
use routes_calls::route::finish_plan;
use routes_gutter::laying::BusLaid;

// H7: as many numbers of the hit buffer are asked for each wire.
pub const HITS_A_WIRE: usize = 21;

// The counts of hits, how many rows of the plan there are, and how many groups were laid.
#[repr(C)]
#[derive(Clone, Copy, Default)]
pub struct HitsFound {
    pub hits: HitCounts,
    pub laid: BusLaid,
}

// H6: 9, after 8; or how many taps the planned sheet has.
fn box_plan(q: PageBox, planned: TextPlan) -> Result<usize, Refusal>
    ensures { result ≡ box_plan q (Ok planned) }
{
    let m = planned.taps?;
    if !is_on_board(q, planned.counts.pages) {
        return Err(Reason::BadBox.at(0));
    }
    Ok(m)
}

// The hits of a box on the finished plan of a sheet's board, and that plan, or a refusal. Each slice of work space has a row for each record, the marks five; the
// hit buffer has 21 numbers for each wire.
// Stays (C interface): C lends each buffer and each slice of work space by itself; one struct of them all would tell what it left by nested pairs.
pub fn find_hits(
    text: &[u8],
    q: PageBox,
    hits: &mut [u32],
    rerouters: &mut [RerouterRow],
    bus_wires: &mut [BusWireRow],
    ports: &mut [PortRow],
    answers: &mut [PageRow],
    records: &mut [Record],
    facts: &mut [WorkRow],
    taps: &mut [WorkRow],
    groups: &mut [WorkRow],
    demands: &mut [WorkRow],
    keys: &mut [WorkRow],
    marks: &mut [WorkRow],
) -> Result<HitsFound, Refusal>
    ensures { HitsCalled q (hits_call q text.now (hits_fit (length hits.old) (length rerouters.old) (length bus_wires.old) (length ports.old) (length answers.old)
        (work_rows records.old facts.old taps.old groups.old demands.old keys.old marks.old)))
        hits.old rerouters.old bus_wires.old ports.old answers.old hits.new rerouters.new bus_wires.new ports.new answers.new result }
{
    let asked = ask(
        [
            rerouters.len(),
            bus_wires.len(),
            ports.len().min(hits.len() / HITS_A_WIRE),
            answers.len(),
        ],
        work_lengths(records, facts, taps, groups, demands, keys, marks),
    );
    let planned = plan_text(
        text, asked, records, facts, taps, groups, demands, keys, marks,
    )?;
    // Stays (no plainer): as in `route_within`, but 9 is tested between planning and laying, where nothing is written yet.
    let m = box_plan(q, planned)?;
    let s = cut_sections(records, planned.counts);
    let taps = &mut taps[..m];
    let laid = finish_plan(
        s, facts, taps, groups, demands, keys, marks, rerouters, bus_wires, ports, answers,
    );
    let bus = laid.bus;
    let found = list_hits(
        q,
        &rerouters[..bus.rerouters],
        &bus_wires[..bus.bus_wires],
        hits,
    );
    Ok(HitsFound { hits: found, laid })
}
