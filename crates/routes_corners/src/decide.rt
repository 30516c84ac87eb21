// Corners are decided row by row: what bears on them is listed, put in the order of rows, and each question is answered in its turn.
ghost use Rattle.std.specs.Prelude.{ℕ, List, length};
ghost use Rattle.board.specs.Board.{Board};
ghost use Rattle.routes.specs.Bus.{Bus};
ghost use Rattle.routes_beside.specs.Beside.{BricksAskable};
ghost use Rattle.routes_turns.specs.CornerItems.{LevelsHeld};
ghost use Rattle.routes_corners.specs.Answering.{DecideRoom};
ghost use Rattle.routes_corners.specs.CornerTables.{firsts};
ghost use Rattle.routes_corners.specs.Listing.{TurnsListed, TurnsOf};

use crate::items::{Turners, fill_corners};
use base::rows::{RerouterRow, WorkRow};
use base::runs::order_by_key;
use routes_rows::notes::NOTES_MOST;
use routes_rows::turn::turn_rows;

// K4 to K7, K9: the level of each wire in the list, by the rerouters, or MISSING.
pub fn decide_corners(
    t: Turners<'_>,
    rerouters: &[RerouterRow],
    items: &mut [WorkRow],
    answers: &mut [u32],
)
    requires bricks_askable { BricksAskable t.s.nodes.now t.facts.now }
    requires turns_listed { TurnsListed t.s.nodes.now t.facts.now t.classes.now t.list.now (length t.list.now) }
    requires decide_room { DecideRoom t.s.nodes.now (length t.list.now) rerouters.now (length rerouters.now) items.old answers.old }
    ensures { (b : Board) (bus : Bus) (pages wires : List (List ℕ)) → TurnsOf b bus pages t.entry.s.nodes.now wires t.entry.facts.now t.entry.classes.now t.entry.list.now (length t.entry.list.now) rerouters.now (length rerouters.now)
        → LevelsHeld b bus answers.new (firsts t.entry.list.now (length t.entry.list.now)) }
{
    let bricks = t.s.nodes.len();
    let first = bricks + rerouters.len();
    let items = &mut items[..first + t.list.len()];
    fill_corners(t, rerouters, items);
    let count = order_by_key(items, bricks);
    let mut notes = [0u32; NOTES_MOST];
    turn_rows(items, count, first, &mut notes, answers);
}
