// The items ordered by their rows, and booked row by row.
ghost use Rattle.std.specs.Prelude.{◌≡◌, ℕ, ◌<◌, length};
ghost use Rattle.board.specs.Board.{Board};
ghost use Rattle.board.specs.Tables.{NodeFacts};
ghost use Rattle.routes_taps.specs.Asking.{RowsTold};
ghost use Rattle.routes_beside.specs.Beside.{RowsAskable};

use crate::items::fill_items;
use base::rows::{Record, WorkRow};
use base::runs::order_by_key;
use routes::laid::Laid;
use routes_rows::book::book_rows;

// C6: what is asked of rows, in order: each candidate is placed where it is clear of its row's bricks and of those placed there before it.
pub fn answer_rows(
    nodes: &[Record],
    laid: Laid<'_>,
    asked: &[WorkRow],
    items: &mut [WorkRow],
    flags: &mut [u8],
)
    requires { RowsAskable nodes.now laid.facts.now laid.taps.now asked.now items.old flags.old }
    ensures { (b : Board) → b.nodes ≡ nodes.now → NodeFacts b laid.entry.facts.now → (k : ℕ) → k < length laid.entry.taps.now → RowsTold b laid.entry.taps.now asked.now (length nodes.now) flags.new k }
{
    let bricks = nodes.len();
    fill_items(nodes, laid, asked, items);
    let m = order_by_key(&mut items[..bricks + 2 * laid.taps.len()], bricks);
    book_rows(items, m, bricks, flags);
}
