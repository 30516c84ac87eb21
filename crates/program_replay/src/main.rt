// Replays the recorded boards: routes each sheet at the program's limits and compares every byte of the answer with the recorded one. A case is a sheet, a line
// `%%plan`, its answer and a line `%%`; after `%%plan!` the byte 10 before that line is not part of the sheet.
#![tactic(auto)]

ghost use Rattle.std.specs.Prelude.{◌≡◌, true, ◌≤◌, ◌<◌, length, IfSome};
ghost use Rattle.routes.specs.Route.{sheet_of};
ghost use Rattle.program_answer.specs.Answering.{program_routed};

use base::numbers::NEWLINE;
use program_answer::calls::{PLAN_MOST, respond};
use program_input::read_full;
use sheet::walk::{behind_part, part_from};
use std::io::{Print, Write};
use std::{fs, io};

const CUT: u8 = b'!';

// The most bytes of a file of records.
const FILE_MOST: usize = 1_048_576;

// How many cases there are, how many of them agree, and where the first that does not begins.
#[derive(Clone, Copy, Default)]
struct Tally {
    cases: usize,
    agreed: usize,
    first: Option<usize>,
}

// Whether the answer to a sheet is this text, byte for byte.
fn agrees(sheet: &[u8], answer: &[u8]) -> bool
    ensures { result ≡ true → answer.now ≡ sheet_of (program_routed sheet.now) }
{
    let mut out = [0u8; PLAN_MOST];
    match respond(sheet, &mut out) {
        None => false,
        Some(n) => &out[..n] == answer,
    }
}

// The start of the next line, or the end of the text.
fn next_line(text: &[u8], from: usize) -> usize
    requires { from < length text.now }
    ensures { (from < result) × (result ≤ length text.now) }
{
    behind_part(text, from, NEWLINE)
}

// Whether a line that starts here starts with two percent signs.
fn is_marker(text: &[u8], at: usize) -> bool
    requires { at < length text.now }
{
    text[at..].starts_with(b"%%")
}

// The first marker line from a line's start on.
// Stays (no plainer): the lines are walked by where they start, since a case is cut from the text by these places; the parts that `split` gives do not tell them.
fn find_marker(text: &[u8], from: usize) -> Option<usize>
    requires { from ≤ length text.now }
    ensures { IfSome result (λ i. (from ≤ i) × (i < length text.now)) }
{
    let mut at = from;
    while at < text.len() {
        if is_marker(text, at) {
            return Some(at);
        }
        at = next_line(text, at);
    }
    None
}

// Where the sheet before a marker ends: one byte earlier where the marker's line ends in `!`.
fn sheet_end(text: &[u8], at: usize, marker: usize, after: usize) -> usize
    requires { (at ≤ marker) × (marker < after) × (after ≤ length text.now) }
    ensures { (at ≤ result) × (result ≤ marker) }
{
    if at < marker && text[after - 2] == CUT {
        marker - 1
    } else {
        marker
    }
}

// A sheet, the answer to it, and where the next case begins.
#[derive(Clone, Copy)]
struct Case<'a> {
    sheet: &'a [u8],
    answer: &'a [u8],
    next: usize,
}

// The case that begins here. What stands behind the last marker is none.
fn case_at<'a>(text: &'a [u8], at: usize) -> Option<Case<'a>>
    requires { at ≤ length text.now }
    ensures { IfSome result (λ case. (at < case.next) × (case.next ≤ length text.now)) }
{
    let marker = find_marker(text, at)?;
    let after = next_line(text, marker);
    let answer_end = find_marker(text, after)?;
    Some(Case {
        sheet: &text[at..sheet_end(text, at, marker, after)],
        answer: &text[after..answer_end],
        next: next_line(text, answer_end),
    })
}

// All cases of a file, one after the other.
fn replay(text: &[u8]) -> Tally
    ensures counts { (result.agreed ≤ result.cases) × (result.cases ≤ length text.now) }
    ensures first { IfSome result.first (λ i. i < length text.now) }
{
    let mut tally = Tally::default();
    let mut at: usize = 0;
    while let Some(case) = case_at(text, at) {
        tally.cases += 1;
        if agrees(case.sheet, case.answer) {
            tally.agreed += 1;
        } else {
            tally.first = tally.first.or(Some(at));
        }
        at = case.next;
    }
    tally
}

// The line that starts here, counted from 1.
fn line_number(text: &[u8], at: usize) -> usize
    requires { at < length text.now }
    ensures { result ≤ length text.now }
{
    1 + text[..at].iter().filter(|byte| **byte == NEWLINE).count()
}

// What came of a file: how many cases agree of how many, and the first line of the first that does not.
fn report<P: Print>(rt: &P, name: &str, text: &[u8]) -> io::Result<()> {
    let tally = replay(text);
    println!(rt; "{name}: {} of {} agree", tally.agreed, tally.cases)?;
    if let Some(first) = tally.first {
        let line = line_number(text, first);
        print!(rt; "the first that does not is on line {line}: ")?;
        io::writer(rt).write_all(part_from(text, first, NEWLINE))?;
        println!(rt; "")?;
    }
    Ok(())
}

// Room for a file of records. What it holds is left open: only its length is told.
fn file_buffer() -> [u8; FILE_MOST]
    ensures { 1048576 ≡ length result }
{
    [0; FILE_MOST]
}

fn replay_file(rt: &HostRuntime, name: &str) -> io::Result<()> {
    let mut text = file_buffer();
    let mut file = fs::open(rt, name)?;
    let n = read_full(&mut file, &mut text)?;
    report(rt, name, &text[..n])
}

fn main(rt: HostRuntime) -> io::Result<()> {
    replay_file(&rt, "boards.txt")?;
    replay_file(&rt, "damaged.txt")
}
