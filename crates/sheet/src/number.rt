// The numbers of a sheet's fields. A field is a part of the text, without the byte that ends it.
ghost use Rattle.std.specs.Prelude.{◌≡◌, ◌+◌, ◌<◌, ◌∷◌, length};
ghost use Rattle.sheet.specs.Number.{ZERO as ofZero, unsigned, signed, number, digits_most};
ghost use Rattle.sheet.specs.Walk.{plus_in, number_in, digits_read, DigitSays};

use base::numbers::{DIGITS_MOST, MINUS, ZERO};

// What a field says that can be read.
#[derive(Clone, Copy)]
pub enum Scanned {
    Missing,
    Plus(u64),
    Minus(u64),
}

// The number of a digit, or none for any other byte: what is taken from that gives a number above nine, so one test tells them apart.
fn digit_of(b: u8) -> Option<u64>
    ensures { DigitSays b result }
{
    let d = u64::from(b).wrapping_sub(u64::from(ZERO));
    (d < 10).then_some(d)
}

// The number that digits write behind a first one.
fn digits_of(first: u64, rest: &[u8]) -> Option<u64>
    requires { (first < 10) × (length rest.now < digits_most) }
    ensures { result ≡ digits_read first rest.now }
{
    let mut value = first;
    for b in rest {
        value = value * 10 + digit_of(*b)?;
    }
    Some(value)
}

// A number without a sign, of which the first digit is known: one to ten digits, and no zero in front of others.
fn unsigned_of(first: u64, rest: &[u8]) -> Option<u64>
    requires { first < 10 }
    ensures { plus_in result ≡ unsigned ((ofZero + first) ∷ rest.now) }
{
    if rest.is_empty() {
        return Some(first);
    }
    if first == 0 {
        return None;
    }
    if DIGITS_MOST <= rest.len() {
        return None;
    }
    digits_of(first, rest)
}

// What follows a `-`: nothing, or a number without a sign. There is no `-0`.
fn signed_of(bytes: &[u8]) -> Option<Scanned>
    ensures { number_in result ≡ signed bytes.now }
{
    let Some((first, rest)) = bytes.split_first() else {
        return Some(Scanned::Missing);
    };
    let v = unsigned_of(digit_of(*first)?, rest)?;
    if v == 0 {
        return None;
    }
    Some(Scanned::Minus(v))
}

// The number that a field writes, with or without a sign. Most have none, so a digit is tried first.
pub fn number_of(field: &[u8]) -> Option<Scanned>
    ensures { number_in result ≡ number field.now }
{
    let (first, rest) = field.split_first()?;
    if let Some(digit) = digit_of(*first) {
        return Some(Scanned::Plus(unsigned_of(digit, rest)?));
    }
    if *first == MINUS {
        return signed_of(rest);
    }
    None
}
