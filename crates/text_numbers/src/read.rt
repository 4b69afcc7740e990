// Reads one field of a line: a word in hexadecimal digits, a number in decimal ones.
ghost use Rattle.std.specs.Prelude.{◌≡◌, Ok, Some};
ghost use Rattle.text_numbers.specs.Fields.{words_of, word_of, leads_with_zero, natural_of, capped_field, up_to, plus_of, minus_of, signed_of};

use crate::digits::{read_decimal, read_digits};
use std::error::Error;
use std::fmt;

// The faults of a field.
#[derive(Clone, Copy, Debug, PartialEq, Eq)]
pub enum Fault {
    WrongLength,
    WrongDigit,
    NoDigit,
    LeadingZero,
    MinusZero,
    OutOfRange,
}

impl fmt::Display for Fault {
    ghost output = { λ f. Some (words_of f) };

    fn fmt<W: fmt::Write>(&self, f: &mut fmt::Formatter<W>) -> fmt::Result {
        f.write_str(match self {
            Fault::WrongLength => "has a wrong length",
            Fault::WrongDigit => "has a wrong digit",
            Fault::NoDigit => "has no digits",
            Fault::LeadingZero => "begins with a zero",
            Fault::MinusZero => "is a zero with a sign",
            Fault::OutOfRange => "is out of range",
        })
    }
}

impl Error for Fault {}

// A word of `width` digits.
#[tactic(auto, unfolding(crate::specs::Fields::word_of))]
pub fn read_word(s: &[u8], width: usize) -> Result<u64, Fault>
    ensures { result ≡ word_of width s.now }
{
    if s.len() != width || width > 16 {
        return Err(Fault::WrongLength);
    }
    read_digits(s, 16).ok_or(Fault::WrongDigit)
}

#[tactic(auto, unfolding(crate::specs::Fields::leads_with_zero))]
fn leads_with_zero(s: &[u8]) -> bool
    ensures { result ≡ leads_with_zero s.now }
{
    s.len() > 1 && s[0] == b'0'
}

// A number without a sign. A number above 4294967296 counts as that one, which is out of every range.
#[tactic(auto, unfolding(crate::specs::Fields::natural_of))]
fn read_number(s: &[u8]) -> Result<u64, Fault>
    ensures { result ≡ capped_field 4294967296 (natural_of s.now) }
{
    if s.is_empty() {
        return Err(Fault::NoDigit);
    }
    if leads_with_zero(s) {
        return Err(Fault::LeadingZero);
    }
    read_decimal(s).ok_or(Fault::WrongDigit)
}

// A number from 0 to 4294967295.
#[tactic(auto, using(crate::proofs::Limits::up_cap))]
pub fn read_unsigned(s: &[u8]) -> Result<u64, Fault>
    ensures { result ≡ up_to 4294967295 (natural_of s.now) }
{
    let v = read_number(s)?;
    if v > u32::MAX as u64 {
        return Err(Fault::OutOfRange);
    }
    Ok(v)
}

fn as_positive(v: u64) -> Result<i32, Fault>
    ensures { result ≡ plus_of (Ok v) }
{
    i32::try_from(v).map_err(|_| Fault::OutOfRange)
}

fn as_negative(v: u64) -> Result<i32, Fault>
    ensures { result ≡ minus_of (Ok v) }
{
    if v == 0 {
        return Err(Fault::MinusZero);
    }
    if v > 2147483648 {
        return Err(Fault::OutOfRange);
    }
    Ok(-(v as i64) as i32)
}

// A number from -2147483648 to 2147483647.
#[tactic(auto, using(crate::proofs::Limits::plus_cap, crate::proofs::Limits::minus_cap), unfolding(crate::specs::Fields::signed_of))]
pub fn read_signed(s: &[u8]) -> Result<i32, Fault>
    ensures { result ≡ signed_of s.now }
{
    if s.is_empty() {
        return Err(Fault::NoDigit);
    }
    if s[0] == b'-' {
        as_negative(read_number(&s[1..])?)
    } else {
        as_positive(read_number(s)?)
    }
}
