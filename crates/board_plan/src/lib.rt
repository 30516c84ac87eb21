// `plan_bus`: from a sheet's text to the lanes of every page, with every refusal in its order. Each call of the router starts with `plan_text`.
#![tactic(auto)]

ghost use Rattle.std.specs.Prelude.{◌≡◌, true, List, ◌++◌, map, ℕ, ◌+◌, ◌≤◌, ◌<◌, length, drop};
ghost use Rattle.sheet.specs.Table.{library_most};
ghost use Rattle.lanes.specs.Lanes.{lane_most};
ghost use Rattle.board.specs.Board.{Board, field};
ghost use Rattle.board.specs.Demands;
ghost use Rattle.board.specs.Refusals;
ghost use Rattle.board.specs.Demands.{PageLanes, plan_lanes};
ghost use Rattle.board.specs.Tables.{PageFacts};
ghost use Rattle.board.specs.Planning.{planning, fits_pages, page_row, pages_after};
ghost use Rattle.board.specs.Walk.{WithinLibrary};
ghost use Rattle.board_plan.specs.TextPlan.{fits_lent, shortest, work_rows, asked_for, has_room, fits_counts, WorkLent, BoardRead, BoardChecked, lent_for, fitting, LanesPlanned, TextPlanned};
ghost use Rattle.board_plan.specs.PagesPlan.{plan_call, PagesPlanned};

use base::numbers::{BUS_BAND_GUTTER, LANE_PITCH};
use base::refusal::{Reason, Refusal};
use base::rows::{IdRow, PageRow, Record, WorkRow};
use board::refusals::check_board;
use board::sections::cut_sections;
use board_lanes::demands::plan_board;
use sheet::{Counts, library_most};

// The lengths of what is lent: rerouters, bus wires, suppressed ports, page answers, the rows of the shortest slice of work space, and bytes for the plan sheet's
// text. A call that is not lent one of them says as much as the largest board asks for.
// Stays (no plainer): that is a number and no Option, so that each length is compared alike, and what is not lent is never short.
#[derive(Clone, Copy)]
pub struct Lent {
    pub rerouters: usize,
    pub bus_wires: usize,
    pub ports: usize,
    pub answers: usize,
    pub work: usize,
    pub out: usize,
}

// What is asked beside the sheet: the most records taken of each section, and the lengths lent.
#[derive(Clone, Copy)]
pub struct Asked {
    pub most: Counts,
    pub lent: Lent,
}

// A board that 1 to 7 leave: how many records it has; and how many taps, with its lanes in the tables, or 8 at the line of its first crowded page. A call gives
// that refusal itself: what it asks for beyond the lent lengths is a 7, and goes before the 8.
#[derive(Clone, Copy)]
pub struct TextPlan {
    pub counts: Counts,
    pub taps: Result<usize, Refusal>,
}

// S15: so many rerouters and bus wires are lent for a wire, and so many bytes for each of the plan sheet's lines, of which a wire has so many at most.
pub const REROUTERS_PER_WIRE: usize = 5;

pub const BUS_WIRES_PER_WIRE: usize = 6;

pub const LINES_PER_WIRE: usize = 12;

pub const LINE_MOST: usize = 128;

// What the largest board asks for.
pub const PORTS_MOST: usize = 8_192;

pub const REROUTERS_MOST: usize = REROUTERS_PER_WIRE * PORTS_MOST;

pub const BUS_WIRES_MOST: usize = BUS_WIRES_PER_WIRE * PORTS_MOST;

pub const ANSWERS_MOST: usize = 64;

pub const OUT_MOST: usize = LINE_MOST * (ANSWERS_MOST + LINES_PER_WIRE * PORTS_MOST + 1);

// S16: so many rows of marks are lent for a record.
pub const MARK_ROWS: usize = 5;

// The rows of the shortest of seven slices.
pub fn shortest_of(lengths: [usize; 7]) -> usize
    ensures { result ≡ shortest lengths }
{
    lengths.iter().copied().min().unwrap_or(0)
}

// The records for which there is room in each slice of work space.
pub fn work_lengths(
    records: &[Record],
    facts: &[WorkRow],
    taps: &[WorkRow],
    groups: &[WorkRow],
    demands: &[WorkRow],
    keys: &[WorkRow],
    marks: &[WorkRow],
) -> [usize; 7]
    ensures { result ≡ work_rows records.now facts.now taps.now groups.now demands.now keys.now marks.now }
{
    [
        records.len(),
        facts.len(),
        taps.len(),
        groups.len(),
        demands.len(),
        keys.len(),
        marks.len() / MARK_ROWS,
    ]
}

// What a call asks that writes no text: by the lengths of its rerouters, bus wires, suppressed ports and page answers, and the records for which there is room in
// each slice of work space. A call without one of the four buffers says the most.
// Stays (no plainer): the buffers are an array, so that each call says all four: of a `Lent` that is filled up from the most, a field that a call forgets would
// pass as never short.
pub fn ask(buffers: [usize; 4], work: [usize; 7]) -> Asked
    ensures { result ≡ asked_for buffers work }
{
    let lent = Lent {
        rerouters: buffers[0],
        bus_wires: buffers[1],
        ports: buffers[2],
        answers: buffers[3],
        work: shortest_of(work),
        out: OUT_MOST,
    };
    Asked {
        most: library_most(),
        lent,
    }
}

// S15, S16: whether enough is lent for so many wires, pages and records.
#[tactic(auto, unfolding(crate::specs::TextPlan::has_room))]
fn has_room(lent: Lent, wires: usize, pages: usize, records: usize) -> bool
    requires { (wires ≤ library_most.wires) × (pages ≤ library_most.pages) }
    ensures { result ≡ has_room lent wires pages records }
{
    REROUTERS_PER_WIRE * wires <= lent.rerouters
        && BUS_WIRES_PER_WIRE * wires <= lent.bus_wires
        && wires <= lent.ports
        && pages <= lent.answers
        && LINE_MOST * (pages + LINES_PER_WIRE * wires + 1) <= lent.out
        && records <= lent.work
}

// The same for so many records of each section.
#[tactic(auto, unfolding(crate::specs::TextPlan::fits_counts))]
fn fits(lent: Lent, c: Counts) -> bool
    requires { (c.pages ≤ library_most.pages) × (c.nodes ≤ library_most.nodes) × (c.chips ≤ library_most.chips) × (c.inner ≤ library_most.inner) × (c.execs ≤ library_most.execs) × (c.wires ≤ library_most.wires) }
    ensures { result ≡ fits_counts lent c }
{
    let records = c.pages + c.nodes + c.chips + c.inner + c.execs + c.wires;
    has_room(lent, c.wires, c.pages, records)
}

// The lanes of a board whose records stand in rows, one section after the other.
// Stays (no plainer): the two indexes are no `Named` of `board_groups` yet, which holds the sections, too: here they are cut, once the board fits.
fn plan_rows(
    records: &[Record],
    counts: Counts,
    body_index: &[IdRow],
    inner_index: &[IdRow],
    facts: &mut [WorkRow],
    taps: &mut [WorkRow],
    groups: &mut [WorkRow],
    demands: &mut [WorkRow],
    keys: &mut [WorkRow],
    spare: &mut [WorkRow],
) -> TextPlan
    requires { (b : Board) × BoardRead b records.now counts body_index.now inner_index.now
        facts.old taps.old groups.old demands.old keys.old spare.old }
    ensures { (b : Board) → BoardRead b records.now counts body_index.now inner_index.now
        facts.old taps.old groups.old demands.old keys.old spare.old
        → LanesPlanned b (plan_lanes b) records.now facts.new taps.new groups.new result }
{
    let s = cut_sections(records, counts);
    let planned = plan_board(
        s,
        body_index,
        inner_index,
        facts,
        taps,
        groups,
        demands,
        keys,
        spare,
    );
    TextPlan {
        counts,
        taps: planned.plan.and(Ok(planned.taps)),
    }
}

// The same of a board that refusals 1 to 6 leave: 7 where what is lent does not fit. Where it fits, every record has its row.
fn plan_fitting(
    lent: Lent,
    records: &[Record],
    counts: Counts,
    body_index: &[IdRow],
    inner_index: &[IdRow],
    facts: &mut [WorkRow],
    taps: &mut [WorkRow],
    groups: &mut [WorkRow],
    demands: &mut [WorkRow],
    keys: &mut [WorkRow],
    spare: &mut [WorkRow],
) -> Result<TextPlan, Refusal>
    requires work_lent { WorkLent lent.work (length records.now) facts.old taps.old groups.old demands.old keys.old spare.old }
    requires board_checked { (b : Board) × BoardChecked b records.now counts body_index.now inner_index.now }
    ensures { (b : Board) → BoardChecked b records.now counts body_index.now inner_index.now
        → TextPlanned (lent_for (fits_lent lent) (Refusals.board b)) records.now facts.new taps.new groups.new result }
{
    if !fits(lent, counts) {
        return Err(Reason::NoRoom.at(0));
    }
    Ok(plan_rows(
        records,
        counts,
        body_index,
        inner_index,
        facts,
        taps,
        groups,
        demands,
        keys,
        spare,
    ))
}

// Refusals 1 to 7 of a sheet in their order, or its board in the tables, with the first crowded page or the lanes of all. `asked.lent.work` rows at
// least stand in every slice.
// Stays (C interface): from here on each slice of work space that C lends is a parameter by itself.
pub fn plan_text(
    text: &[u8],
    asked: Asked,
    records: &mut [Record],
    facts: &mut [WorkRow],
    taps: &mut [WorkRow],
    groups: &mut [WorkRow],
    demands: &mut [WorkRow],
    keys: &mut [WorkRow],
    spare: &mut [WorkRow],
) -> Result<TextPlan, Refusal>
    requires work_lent { WorkLent asked.lent.work (length records.old) facts.old taps.old groups.old demands.old keys.old spare.old }
    requires within_library { WithinLibrary asked.most }
    ensures { TextPlanned (fitting asked.most (fits_lent asked.lent) text.now) records.new facts.new taps.new groups.new result }
{
    let mut body = [[0u32; 3]; 4096];
    let mut chips = [[0u32; 3]; 4096];
    let mut inner = [[0u32; 3]; 4096];
    let counts = check_board(text, asked.most, records, &mut body, &mut chips, &mut inner)?;
    plan_fitting(
        asked.lent, records, counts, &body, &inner, facts, taps, groups, demands, keys, spare,
    )
}

// D4: a page's band, by its count of lanes.
fn band(lanes: u32) -> u32
    requires { lanes ≤ lane_most }
    ensures { result ≡ Demands.band lanes }
{
    if lanes == 0 {
        0
    } else {
        LANE_PITCH * lanes + BUS_BAND_GUTTER
    }
}

// The page answers: lanes and band of each page.
pub fn write_pages(facts: &[WorkRow], answers: &mut [PageRow])
    requires facts_long { length answers.old ≤ length facts.now }
    requires by_index { (p : ℕ) → p < length answers.old → field facts.now p 6 ≤ lane_most }
    ensures { (ps : List PageLanes) → length ps ≡ length answers.old → PageFacts ps facts.now → answers.new ≡ map page_row ps }
{
    for (p, answer) in answers.iter_mut().enumerate() {
        let lanes = facts[p][6];
        *answer = [lanes, band(lanes)];
    }
}

// The lanes and the band of every page of a sheet's board; how many pages there are comes back. Each slice of work space has a row for each record, the marks five.
pub fn plan_bus(
    text: &[u8],
    answers: &mut [PageRow],
    records: &mut [Record],
    facts: &mut [WorkRow],
    taps: &mut [WorkRow],
    groups: &mut [WorkRow],
    demands: &mut [WorkRow],
    keys: &mut [WorkRow],
    marks: &mut [WorkRow],
) -> Result<usize, Refusal>
    ensures { PagesPlanned (plan_call text.now (length answers.old) (work_rows records.old facts.old taps.old groups.old demands.old keys.old marks.old))
        answers.old answers.new result }
{
    let work = work_lengths(records, facts, taps, groups, demands, keys, marks);
    let asked = ask(
        [REROUTERS_MOST, BUS_WIRES_MOST, PORTS_MOST, answers.len()],
        work,
    );
    let planned = plan_text(
        text, asked, records, facts, taps, groups, demands, keys, marks,
    )?;
    planned.taps?;
    let pages = planned.counts.pages;
    write_pages(facts, &mut answers[..pages]);
    Ok(pages)
}
