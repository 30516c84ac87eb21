// C4, C5: the rows of a page, numbered by their downs, and each row's top. Nodes are sorted by page, down and falling x end, so that a row is a run
// of keys and its first key has its top.
ghost use Rattle.std.specs.Prelude.{◌≡◌, true, false, ◌||◌, List, [], ℕ, ◌+◌, ◌*◌, ◌≤◌, ◌<◌, eqb, length, get_or, IfSome};
ghost use Rattle.sheet.specs.Table.{library_most};
ghost use Rattle.board.specs.Board.{Board, field};
ghost use Rattle.board.specs.Accepted.{AcceptedNodes};
ghost use Rattle.board.specs.Tables.{nodes_alone, NodeFacts};
ghost use Rattle.board_groups.specs.Collecting.{row_key, Ranked, run_from, run_after};

use base::numbers::MISSING;
use base::rows::{Record, WorkRow};
use base::sort::sort_rows;

const END_MOST: u32 = 4_000_000;

// C3: a brick's half along x, by its rotation.
fn half_along(rotation: u32, half_x: u32, half_y: u32) -> u32
    ensures { result ≡ elim (eqb rotation 1 || eqb rotation 3) [ true ↦ half_y | false ↦ half_x ] }
{
    if rotation == 1 || rotation == 3 {
        half_y
    } else {
        half_x
    }
}

// The row by which the i-th node is sorted. A node without a row comes behind all others.
fn row_key(node: Record, i: usize) -> WorkRow
    requires accepted { (nodes : List (List ℕ)) × AcceptedNodes nodes × (i < length nodes) × (get_or nodes i [] ≡ node) }
    ensures { (nodes : List (List ℕ)) → get_or nodes i [] ≡ node → result ≡ row_key (nodes_alone nodes) i }
{
    let page = node[10];
    if page == MISSING {
        return [MISSING, 0, 0, i as u32, 0, 0, 0, 0];
    }
    let half = half_along(node[7], node[5], node[6]);
    let end = node[8] + 2 * half;
    [page, node[11], END_MOST - end, i as u32, end, 0, 0, 0]
}

fn fill_row_keys(nodes: &[Record], keys: &mut [WorkRow])
    requires nodes_in_bounds { length nodes.now ≤ length keys.old }
    requires accepted_nodes { AcceptedNodes nodes.now }
    ensures { (i : ℕ) → i < length nodes.now → get_or keys.new i [] ≡ row_key (nodes_alone nodes.now) i }
{
    // Stays (unproved): a loop over `keys.iter_mut().zip(..)` did not show what the keys end as.
    for (i, node) in nodes.iter().enumerate() {
        keys[i] = row_key(*node, i);
    }
}

// A row of a page: its page, its down, its number and its top.
#[derive(Clone, Copy)]
pub struct Run {
    pub page: u32,
    pub down: u32,
    pub row: u32,
    pub top: u32,
}

// The row of a page that starts with the key.
fn run_from(key: WorkRow, row: u32) -> Run
    ensures { result ≡ run_from key row }
{
    Run {
        page: key[0],
        down: key[1],
        row,
        top: key[4],
    }
}

// The row that a key stands in, after that of the key before it, if there is one.
fn run_after(before: Option<Run>, key: WorkRow) -> Run
    requires { IfSome before (λ run. run.row < library_most.nodes) }
    ensures value { result ≡ run_after before key }
    ensures row_bound { (n : ℕ) → IfSome before (λ run. run.row ≤ n) → result.row ≤ n + 1 }
{
    let Some(run) = before else {
        return run_from(key, 0);
    };
    if key[0] != run.page {
        run_from(key, 0)
    } else if key[1] != run.down {
        run_from(key, run.row + 1)
    } else {
        run
    }
}

// Walks the sorted keys and gives each node its row's number and top.
fn assign_rows(keys: &[WorkRow], facts: &mut [WorkRow])
    requires keys_len_bound { length keys.now ≤ library_most.nodes }
    requires by_index { (k : ℕ) → k < length keys.now → field keys.now k 3 < length facts.old }
    ensures { (b : Board) → Ranked b keys.now → NodeFacts b facts.new }
{
    let mut before = None;
    for key in keys {
        let run = run_after(before, *key);
        facts[key[3] as usize] = [run.row, run.top, 0, 0, 0, 0, 0, 0];
        before = Some(run);
    }
}

// Finds the row of every node that has one: its number and its top. `keys` and `spare` are work space.
pub fn number_rows(
    nodes: &[Record],
    keys: &mut [WorkRow],
    spare: &mut [WorkRow],
    facts: &mut [WorkRow],
)
    requires accepted_nodes { AcceptedNodes nodes.now }
    requires nodes_in_bounds { (length nodes.now ≤ length keys.old) × (length nodes.now ≤ length spare.old) × (length nodes.now ≤ length facts.old) }
    ensures { (b : Board) → b.nodes ≡ nodes.now → NodeFacts b facts.new }
{
    let keys = &mut keys[..nodes.len()];
    fill_row_keys(nodes, keys);
    sort_rows(keys, spare);
    assign_rows(keys, facts);
}
