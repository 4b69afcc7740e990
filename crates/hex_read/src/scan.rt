// Hexadecimal digits scanned: the leading digits of the number that they spell, and a sticky mark for the others.
ghost use Rattle.std.specs.Prelude.{◌≡◌, cond, ℕ, ◌+◌, ◌-◌, ◌≤◌, ◌<◌, ltb, length, SomeIff};
ghost use Rattle.text_numbers.specs.Digits.{digit_of};
ghost use Rattle.hex_read.specs.Scanned.{Holds, Scanned};

use crate::lead::Lead;

// What is held after the digits at the front of a text, and the offset of the first byte that is none.
#[derive(Clone, Copy)]
pub struct Scan {
    pub lead: Lead,
    pub end: usize,
}

// c less `zero`, or 16 where c is below the first of its kind: a number, since an Option here would be a jump that cannot be foreseen.
fn less_or_none(c: u64, first: u64, zero: u64) -> u64
    requires { zero ≤ first }
    ensures { result ≡ cond (ltb c first) 16 (c - zero) }
{
    if c < first { 16 } else { c - zero }
}

// A digit. A byte is taken both as a number and as a letter, so that there is no jump for which it is, which cannot be foreseen.
#[inline(always)]
fn hex_digit(b: u8) -> Option<u64>
    ensures { SomeIff result (digit_of b < 16) (digit_of b) }
{
    let c = b as u64;
    let number = less_or_none(c, 48, 48);
    let letter = less_or_none(c, 97, 87);
    let d = if c < 58 { number } else { letter };
    if d < 16 { Some(d) } else { None }
}

// The digits at the front of s, after those that are held.
pub fn scan_digits(s: &[u8], from: Lead) -> Scan
    requires { from.extra + length s.now ≤ 64 }
    ensures scanned { (v n : ℕ) → Holds v from → Scanned v n s.now result }
    ensures end { result.end ≤ length s.now }
    ensures extra { result.lead.extra ≤ from.extra + result.end }
{
    let mut lead = from;
    for (i, b) in s.iter().enumerate() {
        let Some(d) = hex_digit(*b) else {
            return Scan { lead, end: i };
        };
        lead = lead.with_digit(d);
    }
    Scan { lead, end: s.len() }
}
