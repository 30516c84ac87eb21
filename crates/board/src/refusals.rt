// Refusals 4 to 6, from the walks along a sheet's nodes, chips and nodes inside chips.
ghost use Rattle.std.specs.Prelude.{◌≡◌, ◌+◌, Ok};
ghost use Rattle.sheet.specs.Reading.{rows_from};
ghost use Rattle.board.specs.Refusals.{judged_board, judged};
ghost use Rattle.board.specs.Walk.{sheet_board, Fresh, Ready, RowsIf, Indexed, NODES_MOST, CHIPS_MOST, INNER_MOST, WithinLibrary, IndexedIf, verdict_of, fault_of, board_checked};
ghost use Rattle.sheet.specs.Answer.{counts_of};

use crate::ids::IdIndex;
use crate::walks::{Bodies, Lines, Walk, skip_lines, walk_chips, walk_inner, walk_nodes};
use base::refusal::{Reason, Refusal};
use base::rows::{IdRow, Record};
use sheet::{Counts, check_rows};

// 5 before 6, once no id stands twice.
fn verdict(missing: Option<usize>, unplaced: Option<usize>) -> Result<(), Refusal>
    ensures { result ≡ verdict_of missing unplaced }
{
    if let Some(line) = missing {
        return Err(Reason::NotThere.at(line));
    }
    match unplaced {
        Some(line) => Err(Reason::Unplaced.at(line)),
        None => Ok(()),
    }
}

// Refusals 4 to 6 of a sheet that reading accepts: `rows` holds its rows as far as they were lent, and at `rest` the first line without one starts. Without a
// refusal, the three indexes hold the ids of the body nodes, the chips and the nodes inside chips.
pub fn find_fault<'a>(
    text: &'a [u8],
    rows: &'a [Record],
    rest: usize,
    counts: Counts,
    body: &mut [IdRow],
    chips: &mut [IdRow],
    inner: &mut [IdRow],
) -> Result<(), Refusal>
    requires ready { Ready text.now rows.now 0 rest }
    requires counts_value { counts ≡ counts_of (rows_from text.now) }
    requires fresh { Fresh body.old NODES_MOST }
    requires fresh_2 { Fresh chips.old CHIPS_MOST }
    requires fresh_3 { Fresh inner.old INNER_MOST }
    ensures value { result ≡ fault_of (judged_board (sheet_board text.now)) }
    ensures indexed { result ≡ Ok tt → Indexed (sheet_board text.now) body.new chips.new inner.new }
{
    let mut kinds = [0u32; 4096];
    let start = Walk {
        place: skip_lines(text, rows, counts.pages, rest),
        missing: None,
        unplaced: None,
    };
    let lines = Lines {
        text,
        rows,
        first: counts.pages,
        count: counts.nodes,
    };
    let after_nodes = walk_nodes(lines, start, body, &mut kinds)?;
    let bodies = IdIndex {
        rows: body,
        count: counts.nodes,
    };
    let known = Bodies {
        ids: bodies,
        kinds: &kinds,
    };
    let lines = lines.behind(counts.chips);
    let after_chips = walk_chips(lines, after_nodes, known, chips)?;
    let named = IdIndex {
        rows: chips,
        count: counts.chips,
    };
    let after_inner = walk_inner(
        lines.behind(counts.inner),
        after_chips,
        bodies,
        named,
        inner,
    )?;
    verdict(after_inner.missing, after_inner.unplaced)
}

// Refusals 1 to 6 of a sheet, or how many records of each section its board has. With a board, the three indexes hold its ids, and `rows` the rows of its lines,
// as far as they reach. On a refusal they hold anything.
pub fn check_board(
    text: &[u8],
    most: Counts,
    rows: &mut [Record],
    body: &mut [IdRow],
    chips: &mut [IdRow],
    inner: &mut [IdRow],
) -> Result<Counts, Refusal>
    requires within_library { WithinLibrary most }
    requires fresh { Fresh body.old NODES_MOST }
    requires fresh_2 { Fresh chips.old CHIPS_MOST }
    requires fresh_3 { Fresh inner.old INNER_MOST }
    ensures value { result ≡ board_checked (judged most text.now) }
    ensures indexed_if { IndexedIf (judged most text.now) body.new chips.new inner.new }
    ensures rows_if { RowsIf most text.now rows.new }
{
    let kept = check_rows(text, most, rows)?;
    let counts = kept.counts;
    find_fault(text, rows, kept.rest, counts, body, chips, inner)?;
    Ok(counts)
}
