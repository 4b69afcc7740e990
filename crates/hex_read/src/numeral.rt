// A numeral, rounded to a pattern: a number with its sign, an infinity or a NaN.
ghost use Rattle.std.specs.Prelude.{◌≡◌, ◌≤◌, ◌<◌, ◌^◌, length, pos, ◌+ℤ◌, option_map};
ghost use Rattle.std.specs.Int.Signed.{mag};
ghost use Rattle.ieee.specs.Format.{low};
ghost use Rattle.ieee.specs.Scalbn.{scaled};
ghost use Rattle.ieee.specs.Round as ieee;
ghost use Rattle.ieee.specs.Round.{answer};
ghost use Rattle.ieee_numeral_laws.specs.Reading.{numeral_of};
ghost use Rattle.fmt_fields.specs.Layout.{format_of};
ghost use Rattle.fmt_fields.specs.Raised.{attribute_of};
ghost use Rattle.hex_read.specs.Found.{FoundAs, word_of};

use crate::number::{Number, read_number};
use fmt_decode::norm::low_of;
use fmt_fields::attribute::Attribute;
use fmt_fields::layout::Format;
use round_step::round::round;

// A number with its sign, rounded.
fn value_of(fmt: Format, attribute: Attribute, neg: bool, n: Number) -> u64
    requires { mag n.exp < 2 ^ 18 }
    ensures { result ≡ answer (format_of fmt) (attribute_of attribute) neg (scaled neg n.sig (n.exp +ℤ pos (low (format_of fmt)))) }
{
    round(fmt, attribute, neg, n.sig, n.exp + low_of(fmt)).value
}

// `inf` after a minus or no sign, `nan` after none.
fn read_word(fmt: Format, plus: bool, neg: bool, s: &[u8]) -> Option<u64>
    ensures { (a : ieee.Attribute) → FoundAs (format_of fmt) a (word_of plus neg s.now) result }
{
    if plus {
        return None;
    }
    if check::same(s, b"inf") {
        return Some(fmt.with_sign(neg, fmt.infinity()));
    }
    if !neg && check::same(s, b"nan") {
        return Some(fmt.nan());
    }
    None
}

// All of s. There is no jump for the sign, which cannot be foreseen.
pub fn read_numeral(fmt: Format, attribute: Attribute, s: &[u8]) -> Option<u64>
    requires fraction { fmt.frac ≤ 55 }
    requires text { length s.now ≤ 64 }
    ensures { FoundAs (format_of fmt) (attribute_of attribute) (numeral_of s.now) result }
{
    let first = *s.first()?;
    let plus = first == b'+';
    let neg = first == b'-';
    let rest = &s[usize::from(plus | neg)..];
    match read_number(rest) {
        Some(n) => Some(value_of(fmt, attribute, neg, n)),
        None => read_word(fmt, plus, neg, rest),
    }
}
