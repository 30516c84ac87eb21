// Reads a board sheet from standard input and prints its plan sheet, or the E line that turns it away.
#![tactic(auto)]

use program_answer::calls::{INPUT_MOST, PLAN_MOST, respond};
use program_input::read_full;
use std::io;
use std::io::Write;

// The answer to a text, written out.
fn print_answer<W: Write>(output: &mut W, text: &[u8]) -> io::Result<()> {
    let mut out = [0u8; PLAN_MOST];
    match respond(text, &mut out) {
        None => Ok(()),
        Some(n) => output.write_all(&out[..n]),
    }
}

// One byte more is read than the program takes, so that a longer input is told from one that just fits.
fn main(rt: HostRuntime) -> io::Result<()> {
    let mut text = [0u8; INPUT_MOST + 1];
    let n = read_full(&mut rt.reader(), &mut text)?;
    print_answer(&mut io::writer(&rt), &text[..n])
}
