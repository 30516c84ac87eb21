// The finished plan as text: the buffers, counted and written.
#![tactic(auto)]

use base::numbers::MISSING;
use base::rows::BusWireRow;

pub mod plan_sheet;

ghost use Rattle.std.specs.Prelude.{◌≡◌, ◌+◌, ◌*◌, ◌<◌, ◌≤◌, List, length};
ghost use Rattle.std.specs.List.{count_by};
ghost use Rattle.sheet.specs.Written.{Wrote};
ghost use Rattle.board.specs.Board.{Board};
ghost use Rattle.board.specs.Demands.{PageLanes};
ghost use Rattle.routes.specs.Plan.{finished, laid_groups};
ghost use Rattle.routes.specs.PlanSheet.{plan_sheet};
ghost use Rattle.routes_plan_sheet.specs.Held.{names_wire, totals_of, PlanHeld};

use crate::plan_sheet::{PlanRows, Totals, put_plan};

// How many bus wires are deliveries: those that name a wire.
fn count_deliveries(bus_wires: &[BusWireRow]) -> usize
    ensures { (result ≡ count_by names_wire bus_wires.now) × (result ≤ length bus_wires.now) }
{
    bus_wires.iter().filter(|wire| wire[4] != MISSING).count()
}

// P6: the counts of the last line.
fn totals(n: usize, k: usize, deliveries: usize, wires: usize, groups: usize) -> Totals
    requires { (n < 4294967295) × (k < 4294967295) × (deliveries ≤ k) × (wires < 4294967295) × (groups < 4294967295) }
    ensures { result ≡ totals_of n k deliveries wires groups }
{
    Totals {
        rerouters: n as u32,
        bus_wires: k as u32,
        deliveries: deliveries as u32,
        direct: wires.saturating_sub(deliveries) as u32,
        laid: groups as u32,
    }
}

// Writes the plan sheet of the finished plan that the rows hold: how many bytes it has.
pub fn write_plan(out: &mut [u8], rows: PlanRows<'_>, wires: usize, groups: usize) -> usize
    requires room { 128 * length rows.pages.now + 128 * length rows.rerouters.now + 128 * length rows.bus_wires.now + 128 * length rows.ports.now + 128 ≤ length out.old }
    requires few { (length rows.pages.now < 4294967295) × (length rows.rerouters.now < 4294967295) × (length rows.bus_wires.now < 4294967295) × (length rows.ports.now < 4294967295) }
    requires wires_bound { (wires < 4294967295) × (groups < 4294967295) }
    ensures { (b : Board) (ps : List PageLanes)
        → PlanHeld b ps rows.entry.pages.now rows.entry.rerouters.now rows.entry.bus_wires.now rows.entry.ports.now wires groups
        → Wrote out.old 0 (plan_sheet b ps (finished b ps) (laid_groups b ps)) out.new result }
{
    let n = rows.rerouters.len();
    let k = rows.bus_wires.len();
    let deliveries = count_deliveries(rows.bus_wires);
    put_plan(out, rows, totals(n, k, deliveries, wires, groups))
}
