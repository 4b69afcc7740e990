// Puts the parts of a numeral into a room that holds them: each is stored at an offset, and the offset after it is returned.
ghost use Rattle.std.specs.Prelude.{◌≡◌, cond, [], ◌∷◌, ◌+◌, ◌≤◌, ◌<◌, length};
ghost use Rattle.text_numbers.specs.Digits.{digits_of};
ghost use Rattle.ieee_numeral_laws.specs.Numeral.{plus, dash};
ghost use Rattle.ieee_numeral_laws.specs.Write.{sign_text, after_point};
ghost use Rattle.hex_write.specs.Put.{Put};
ghost use Rattle.hex_write.specs.Parts.{head_text, tail_text};

use crate::parts::{Exponent, Fraction};
use text_numbers::write::{write_digits, write_word};

fn put_byte(out: &mut [u8], at: usize, c: u8) -> usize
    requires { at < length out.old }
    ensures { Put out.old at (c ∷ []) out.new result }
{
    out[at] = c;
    at + 1
}

// At the front, `-` or nothing.
pub fn put_sign(out: &mut [u8], neg: bool) -> usize
    requires { length (sign_text neg []) ≤ length out.old }
    ensures { Put out.old 0 (sign_text neg []) out.new result }
{
    if neg {
        return put_byte(out, 0, b'-');
    }
    0
}

// `0x` and the digit before the point.
pub fn put_head(out: &mut [u8], at: usize, lead: u64) -> usize
    requires lead { lead < 2 }
    requires room { at + 3 ≤ length out.old }
    ensures { Put out.old at (head_text lead) out.new result }
{
    let letter = put_byte(out, at, b'0');
    let digit = put_byte(out, letter, b'x');
    put_byte(out, digit, b'0' + lead as u8)
}

// The point and the digits behind it, if there are any.
pub fn put_fraction(out: &mut [u8], at: usize, f: Fraction) -> usize
    requires { at + length (after_point (digits_of 16 f.count f.digits)) ≤ length out.old }
    ensures { Put out.old at (after_point (digits_of 16 f.count f.digits)) out.new result }
{
    if f.count == 0 {
        return at;
    }
    let first = put_byte(out, at, b'.');
    write_word(out, first, f.digits, f.count)
}

fn exponent_sign(below: bool) -> u8
    ensures { result ≡ cond below dash plus }
{
    if below { b'-' } else { b'+' }
}

// `p`, the sign of the exponent and its decimal digits.
pub fn put_exponent(out: &mut [u8], at: usize, e: Exponent) -> usize
    requires { at + length (tail_text e.below e.count e.size) ≤ length out.old }
    ensures { Put out.old at (tail_text e.below e.count e.size) out.new result }
{
    let sign = put_byte(out, at, b'p');
    let first = put_byte(out, sign, exponent_sign(e.below));
    write_digits(out, first, 10, e.count, e.size)
}
