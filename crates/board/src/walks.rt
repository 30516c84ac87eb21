// A sheet's sections, walked line by line from the rows that the reading kept, and behind the last of them from the text: every id is entered into an index on the
// way, and the first line at fault is kept.
ghost use Rattle.std.specs.Prelude.{◌≡◌, true, false, not, ◌&&◌, ◌≤◌, ◌<◌, ◌+◌, leb, length, get_or};
ghost use Rattle.sheet.specs.Table.{library_most};
ghost use Rattle.sheet.specs.Reading.{rows_from};
ghost use Rattle.sheet.specs.Answer.{row_from};
ghost use Rattle.base.specs.Lists.{found};
ghost use Rattle.board.specs.Board.{given};
ghost use Rattle.board.specs.Index.{Index, entry_of};
ghost use Rattle.board.specs.Walk.{is_chip, line_from, sheet_board, Fresh, Entered, Ready, ChipsReady, InnerReady, WalkedNodes, WalkedChips, WalkedInner};

use crate::ids::{IdIndex, add_id};
use base::ids::NodeId;
use base::numbers::{KIND_CHIP, MISSING};
use base::refusal::{Reason, Refusal};
use base::rows::{IdRow, Record};
use sheet::{RowAt, row_of};

// The lines of a section: so many lines stand before them, and so many there are. Those that have no row are read from the text.
#[derive(Clone, Copy)]
pub struct Lines<'a> {
    pub text: &'a [u8],
    pub rows: &'a [Record],
    pub first: usize,
    pub count: usize,
}

impl<'a> Lines<'a> {
    // Those of the section behind it, of which there are so many.
    pub(crate) fn behind(self, count: usize) -> Lines<'a>
        requires { self.first + self.count ≤ library_most.pages + library_most.nodes + library_most.chips }
        ensures { (result.text.now ≡ self.entry.text.now) × (result.rows.now ≡ self.entry.rows.now) × (result.first ≡ self.entry.first + self.entry.count) × (result.count ≡ count) }
    {
        Lines {
            first: self.first + self.count,
            count,
            ..self
        }
    }

    // The row of line i, which is read from the text at `at` where none is kept.
    fn row_of(self, i: usize, at: usize) -> RowAt
        requires { self.first + i < 4294967295 }
        ensures { result ≡ row_from self.entry.text.now self.entry.rows.now (self.entry.first + i) at }
    {
        row_of(self.text, self.rows, self.first + i, at)
    }

    // The number of line i, which a refusal names.
    fn line_of(self, i: usize) -> usize
        requires { self.first + i < 4294967295 }
        ensures { result ≡ line_from self.entry.first i }
    {
        self.first + i + 1
    }
}

// Where in the text a walk along the lines goes on behind the rows, and the first lines of a 5 and a 6 so far.
#[derive(Clone, Copy)]
pub struct Walk {
    pub place: usize,
    pub missing: Option<usize>,
    pub unplaced: Option<usize>,
}

// The body nodes: their ids, and the kind of each.
#[derive(Clone, Copy)]
pub struct Bodies<'a, 'b> {
    pub ids: IdIndex<'a>,
    pub kinds: &'b [u32],
    pub ghost kinds_there: { ids.count ≤ length kinds.now },
}

impl Bodies<'_, '_> {
    // Whether the id names a body node that is a Chip.
    fn is_chip(self, id: NodeId) -> bool
        ensures { result ≡ is_chip self.entry.kinds.now (entry_of self.entry.ids.rows.now self.entry.ids.count id.0) }
    {
        self.ids
            .find(id)
            .is_some_and(|i| self.kinds[i] == KIND_CHIP)
    }
}

// Enters the id of a line: a 4, if it is there already.
fn enter_id(index: &mut [IdRow], n: usize, id: NodeId, line: usize) -> Result<(), Refusal>
    requires index { Index index.old n }
    requires n_in_bounds { (n < length index.old) × (n < 4096) }
    ensures { Entered index.old n id.0 line result index.new }
{
    let ids = IdIndex {
        rows: index,
        count: n,
    };
    if ids.has(id) {
        return Err(Reason::IdTaken.at(line));
    }
    add_id(index, n, id);
    Ok(())
}

// E5: the page of an N.
fn page_missing(row: Record, pages: usize) -> bool
    ensures { result ≡ (given (get_or row 10 0) && leb pages (get_or row 10 0)) }
{
    row[10] != MISSING && pages <= row[10] as usize
}

// E6: an N that has a row and is not placed.
fn row_unplaced(row: Record) -> bool
    ensures { result ≡ (given (get_or row 10 0) && not (given (get_or row 8 0))) }
{
    row[10] != MISSING && row[8] == MISSING
}

// E5: the parent of a C, among the chips before it, or the brick of a top chip.
fn parent_missing(bodies: Bodies<'_, '_>, chips: IdIndex<'_>, row: Record) -> bool
    ensures { result ≡ elim (given (get_or row 2 0)) [
      | true ↦ not (found (entry_of chips.entry.rows.now chips.entry.count (get_or row 2 0)))
      | false ↦ not (is_chip bodies.entry.kinds.now (entry_of bodies.entry.ids.rows.now bodies.entry.ids.count (get_or row 1 0)))
    ] }
{
    if row[2] == MISSING {
        !bodies.is_chip(NodeId(row[1]))
    } else {
        !chips.has(NodeId(row[2]))
    }
}

// Where the first line starts that has no row and is not among the first `n`: `rest` is where the first without a row starts.
pub fn skip_lines(text: &[u8], rows: &[Record], n: usize, rest: usize) -> usize
    requires ready { Ready text.now rows.now 0 rest }
    requires n_in_bounds { n ≤ length (rows_from text.now) }
    ensures { Ready text.now rows.now n result }
{
    let mut place = rest;
    for k in rows.len()..n {
        place = row_of(text, rows, k, place).next;
    }
    place
}

// Stays (no plainer): each of the three walks asks and enters something else of a row, and that of a chip asks the index that its walk is filling: one walk would
// hand the index to a closure at each turn.

// The N lines.
pub fn walk_nodes(
    lines: Lines<'_>,
    mut w: Walk,
    index: &mut [IdRow],
    kinds: &mut [u32],
) -> Result<Walk, Refusal>
    requires ready { Ready lines.text.now lines.rows.now lines.first w.place }
    requires first_value { (lines.first ≡ length (sheet_board lines.text.now).pages) × (lines.count ≡ length (sheet_board lines.text.now).nodes) }
    requires n_in_bounds { lines.count ≤ length kinds.old }
    requires fresh { Fresh index.old lines.count }
    ensures { WalkedNodes lines.entry.text.now lines.entry.rows.now lines.entry.first lines.entry.count w result index.new kinds.new }
{
    for i in 0..lines.count {
        let RowAt { row, next } = lines.row_of(i, w.place);
        let line = lines.line_of(i);
        enter_id(index, i, NodeId(row[1]), line)?;
        kinds[i] = row[2];
        w.missing = w.missing.or(page_missing(row, lines.first).then_some(line));
        w.unplaced = w.unplaced.or(row_unplaced(row).then_some(line));
        w.place = next;
    }
    Ok(w)
}

// The C lines, once the body nodes are known.
pub fn walk_chips(
    lines: Lines<'_>,
    mut w: Walk,
    bodies: Bodies<'_, '_>,
    index: &mut [IdRow],
) -> Result<Walk, Refusal>
    requires ready { Ready lines.text.now lines.rows.now lines.first w.place }
    requires chips_ready { ChipsReady (sheet_board lines.text.now) lines.first lines.count bodies.ids.count bodies.ids.rows.now bodies.kinds.now }
    requires fresh { Fresh index.old lines.count }
    ensures { WalkedChips lines.entry.text.now lines.entry.rows.now lines.entry.first lines.entry.count w result index.new }
{
    for c in 0..lines.count {
        let RowAt { row, next } = lines.row_of(c, w.place);
        let line = lines.line_of(c);
        let chips = IdIndex {
            rows: index,
            count: c,
        };
        let gone = parent_missing(bodies, chips, row);
        enter_id(index, c, NodeId(row[1]), line)?;
        w.missing = w.missing.or(gone.then_some(line));
        w.place = next;
    }
    Ok(w)
}

// The F lines, once the body nodes and the chips are known.
pub fn walk_inner(
    lines: Lines<'_>,
    mut w: Walk,
    bodies: IdIndex<'_>,
    chips: IdIndex<'_>,
    index: &mut [IdRow],
) -> Result<Walk, Refusal>
    requires ready { Ready lines.text.now lines.rows.now lines.first w.place }
    requires inner_ready { InnerReady (sheet_board lines.text.now) lines.first lines.count bodies.count chips.count bodies.rows.now chips.rows.now }
    requires fresh { Fresh index.old lines.count }
    ensures { WalkedInner lines.entry.text.now lines.entry.rows.now lines.entry.first lines.entry.count w result index.new }
{
    for f in 0..lines.count {
        let RowAt { row, next } = lines.row_of(f, w.place);
        let line = lines.line_of(f);
        if bodies.has(NodeId(row[1])) {
            return Err(Reason::IdTaken.at(line));
        }
        enter_id(index, f, NodeId(row[1]), line)?;
        w.missing = w.missing.or((!chips.has(NodeId(row[2]))).then_some(line));
        w.place = next;
    }
    Ok(w)
}
