// The three calls in order: a sheet's board is planned, its lanes are laid and settled, its corners turned and settled.
ghost use Rattle.std.specs.Prelude.{◌≡◌, List, ◌++◌, map, ℕ, ◌≤◌, length, drop};
ghost use Rattle.board.specs.Board.{Board};
ghost use Rattle.board.specs.Demands.{PageLanes};
ghost use Rattle.board.specs.Planning.{planning, page_row};
ghost use Rattle.board.specs.Walk.{WithinLibrary};
ghost use Rattle.board_plan.specs.TextPlan.{fits_lent, work_rows, WorkLent};
ghost use Rattle.routes.specs.Plan.{finished, laid_groups};
ghost use Rattle.routes_gutter.specs.Bus.{BusLent, BusStands};
ghost use Rattle.routes_calls.specs.Finish.{CornersReady, PlanReady, PlanTexted};
ghost use Rattle.routes_calls.specs.Route.{plan_fits, route_call, PlanCalled};

use crate::mini::settle_corners;
use base::refusal::Refusal;
use base::rows::{BusWireRow, PageRow, PortRow, Record, RerouterRow, WorkRow};
use board::sections::{Sections, cut_sections};
use board_plan::{Asked, ask, plan_text, work_lengths, write_pages};
use routes::bus::BusCounts;
use routes_corners::turn::turn_corners;
use routes_gutter::laying::{BusLaid, lay_and_settle};
use sheet::Counts;

// A finished plan: how many records of each section its board has, what stands in the buffers, and how many groups were laid.
#[derive(Clone, Copy)]
pub struct PlanLaid {
    pub counts: Counts,
    pub laid: BusLaid,
}

// The corners on top of the lanes' bus, and the ports that their deliveries suppress. There is always room: a wire that may turn is not delivered yet.
// Stays (C interface): C lends each buffer and each slice of work space by itself; one struct of them all would tell what it left by nested pairs.
fn turn_and_settle(
    s: Sections<'_>,
    facts: &[WorkRow],
    rerouters: &mut [RerouterRow],
    bus_wires: &mut [BusWireRow],
    ports: &mut [PortRow],
    held: BusCounts,
    marks: &mut [WorkRow],
) -> BusCounts
    requires { (b : Board) × (ps : List PageLanes) × (old : List (List ℕ)) × (old_wires : List (List ℕ)) × (oldPorts : List (List ℕ)) × CornersReady b ps old old_wires oldPorts s.pages.now s.nodes.now s.wires.now facts.now rerouters.old bus_wires.old ports.old held marks.old }
    ensures { (b : Board) (ps : List PageLanes) (old old_wires oldPorts : List (List ℕ)) → CornersReady b ps old old_wires oldPorts s.entry.pages.now s.entry.nodes.now s.entry.wires.now facts.now rerouters.old bus_wires.old ports.old held marks.old
        → BusStands (finished b ps) old old_wires oldPorts rerouters.new bus_wires.new ports.new result }
{
    match turn_corners(s, facts, rerouters, bus_wires, ports, held, marks) {
        Err(_) => held,
        Ok(count) => settle_corners(count, held, bus_wires, ports),
    }
}

// The finished plan of a planned board whose sections are cut, and its page answers: laid and settled, turned and settled.
pub fn finish_plan(
    s: Sections<'_>,
    facts: &[WorkRow],
    taps: &mut [WorkRow],
    groups: &[WorkRow],
    demands: &mut [WorkRow],
    keys: &mut [WorkRow],
    marks: &mut [WorkRow],
    rerouters: &mut [RerouterRow],
    bus_wires: &mut [BusWireRow],
    ports: &mut [PortRow],
    answers: &mut [PageRow],
) -> BusLaid
    requires { (b : Board) × (ps : List PageLanes) × PlanReady b ps s.pages.now s.nodes.now s.wires.now facts.now taps.old groups.now demands.old keys.old marks.old rerouters.old bus_wires.old ports.old answers.old }
    ensures { (b : Board) (ps : List PageLanes) → PlanReady b ps s.entry.pages.now s.entry.nodes.now s.entry.wires.now facts.now taps.old groups.now demands.old keys.old marks.old rerouters.old bus_wires.old ports.old answers.old
        → BusStands (finished b ps) rerouters.old bus_wires.old ports.old rerouters.new bus_wires.new ports.new result.bus × (result.groups ≡ laid_groups b ps)
        × (answers.new ≡ map page_row ps ++ drop (length ps) answers.old) }
{
    let laid = lay_and_settle(
        s, facts, taps, groups, demands, keys, marks, rerouters, bus_wires, ports,
    );
    let bus = turn_and_settle(s, facts, rerouters, bus_wires, ports, laid.bus, marks);
    write_pages(facts, &mut answers[..s.pages.len()]);
    BusLaid { bus, ..laid }
}

// The finished plan of a sheet's board and its page answers: every refusal first, so that nothing is written where there is one.
pub fn route_within(
    text: &[u8],
    asked: Asked,
    rerouters: &mut [RerouterRow],
    bus_wires: &mut [BusWireRow],
    ports: &mut [PortRow],
    answers: &mut [PageRow],
    records: &mut [Record],
    facts: &mut [WorkRow],
    taps: &mut [WorkRow],
    groups: &mut [WorkRow],
    demands: &mut [WorkRow],
    keys: &mut [WorkRow],
    marks: &mut [WorkRow],
) -> Result<PlanLaid, Refusal>
    requires work_lent { WorkLent asked.lent.work (length records.old) facts.old taps.old groups.old demands.old keys.old marks.old }
    requires within_library { WithinLibrary asked.most × BusLent asked.lent marks.old rerouters.old bus_wires.old ports.old × (asked.lent.answers ≤ length answers.old) }
    ensures { PlanTexted (planning asked.most (fits_lent asked.lent) text.now) rerouters.old bus_wires.old ports.old answers.old rerouters.new bus_wires.new ports.new answers.new result }
{
    let planned = plan_text(
        text, asked, records, facts, taps, groups, demands, keys, marks,
    )?;
    let counts = planned.counts;
    let m = planned.taps?;
    let s = cut_sections(records, counts);
    let taps = &mut taps[..m];
    let laid = finish_plan(
        s, facts, taps, groups, demands, keys, marks, rerouters, bus_wires, ports, answers,
    );
    Ok(PlanLaid { counts, laid })
}

// The finished plan of a sheet's board and its page answers, or a refusal. Each slice of work space has a row for each record, the marks five.
pub fn route(
    text: &[u8],
    rerouters: &mut [RerouterRow],
    bus_wires: &mut [BusWireRow],
    ports: &mut [PortRow],
    answers: &mut [PageRow],
    records: &mut [Record],
    facts: &mut [WorkRow],
    taps: &mut [WorkRow],
    groups: &mut [WorkRow],
    demands: &mut [WorkRow],
    keys: &mut [WorkRow],
    marks: &mut [WorkRow],
) -> Result<BusLaid, Refusal>
    ensures { PlanCalled (route_call text.now (plan_fits (length rerouters.old) (length bus_wires.old) (length ports.old) (length answers.old)
        (work_rows records.old facts.old taps.old groups.old demands.old keys.old marks.old)))
        rerouters.old bus_wires.old ports.old answers.old rerouters.new bus_wires.new ports.new answers.new result }
{
    let asked = ask(
        [rerouters.len(), bus_wires.len(), ports.len(), answers.len()],
        work_lengths(records, facts, taps, groups, demands, keys, marks),
    );
    let plan = route_within(
        text, asked, rerouters, bus_wires, ports, answers, records, facts, taps, groups, demands,
        keys, marks,
    )?;
    Ok(plan.laid)
}
