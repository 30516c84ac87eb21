// Writing: numbers and lines appended to a lent buffer. Each function takes the place to write at and gives the place behind what it wrote.
// Stays (no plainer): a struct of buffer and place would hold a `&mut` slice, and what it leaves is told by nested pairs.
ghost use Rattle.std.specs.Prelude.{◌≡◌, ℕ, ◌+◌, ◌<◌, ◌≤◌, List, [], ◌∷◌, length};
ghost use Rattle.sheet.specs.Written.{Wrote, digits_of, decimal, coordinate_text, number_text};

use base::numbers::{DIGITS_MOST, MINUS, MISSING, ORIGIN, ZERO};

// One byte: a letter, a tab, byte 10.
pub fn put_byte(out: &mut [u8], at: usize, byte: u8) -> usize
    requires { at < length out.old }
    ensures { Wrote out.old at (byte ∷ []) out.new result }
{
    out[at] = byte;
    at + 1
}

// The digits of a number, at most so many: those in front of the last digit first.
fn put_digits(out: &mut [u8], at: usize, most: usize, n: u32) -> usize
    requires { at + most ≤ length out.old }
    ensures { Wrote out.old at (digits_of most n) out.new result }
{
    if most == 0 {
        return at;
    }
    if n < 10 {
        return put_byte(out, at, ZERO + n as u8);
    }
    let last = put_digits(out, at, most - 1, n / 10);
    put_byte(out, last, ZERO + (n % 10) as u8)
}

pub fn put_decimal(out: &mut [u8], at: usize, n: u32) -> usize
    requires { at + 10 ≤ length out.old }
    ensures { Wrote out.old at (decimal n) out.new result }
{
    put_digits(out, at, DIGITS_MOST, n)
}

// A held coordinate, as the number that it holds.
pub fn put_coordinate(out: &mut [u8], at: usize, held: u32) -> usize
    requires { at + 11 ≤ length out.old }
    ensures { Wrote out.old at (coordinate_text held) out.new result }
{
    if held < ORIGIN {
        let next = put_byte(out, at, MINUS);
        return put_decimal(out, next, ORIGIN - held);
    }
    put_decimal(out, at, held - ORIGIN)
}

// A number, or `-` for one that is missing.
// Stays (C interface): n is a row's number as it stands.
pub fn put_number(out: &mut [u8], at: usize, n: u32) -> usize
    requires { at + 10 ≤ length out.old }
    ensures { Wrote out.old at (number_text n) out.new result }
{
    if n == MISSING {
        return put_byte(out, at, MINUS);
    }
    put_decimal(out, at, n)
}
