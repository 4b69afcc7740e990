// floor and ceil alike: a number sent down, or up, to a whole number, as `directed` (specs/Directed.antt) has it by a Bool. The value alone needs no jump.
ghost use Rattle.std.specs.Prelude.{◌≡◌};
ghost use Rattle.ieee.specs.Pattern.{Pattern, minus};
ghost use Rattle.fmt_fields.specs.Layout.{format_of};
ghost use Rattle.fmt_fields.specs.Raised.{flags_of};
ghost use Rattle.integral.specs.Point.{one_nan};
ghost use Rattle.integral.specs.Directed.{directed, directed_flags, goes_away, ones_if, one_or_zero, below_one, cut_by};

use crate::mask::Mask;
use crate::point::{
    bias, canonicalise, choose_by_point, exponent_of, fraction_mask, is_number, shift_sign_out,
};
use fmt_fields::env::{Flagged, Raised};
use fmt_fields::layout::Format;
use word_bits::pow;

// All ones where x is negative, otherwise 0.
fn sign_word(fmt: Format, x: u64) -> u64
    requires { Pattern (format_of fmt) x }
    ensures { result ≡ ones_if (minus (format_of fmt) x) }
{
    0u64.wrapping_sub(x / pow(fmt.frac + fmt.expo))
}

// All ones where x goes away from zero, otherwise 0.
fn away_word(fmt: Format, x: u64, up: bool) -> u64
    requires { Pattern (format_of fmt) x }
    ensures { result ≡ ones_if (goes_away (format_of fmt) up x) }
{
    let sign = sign_word(fmt, x);
    if up {
        return 0xffffffffffffffff - sign;
    }
    sign
}

// A one where x goes away from zero, else a zero, with the sign of x: down -1 or +0, and up -0 or 1. The sign's word keeps what a negative x has more.
fn one_or_zero(fmt: Format, x: u64, up: bool) -> u64
    requires { Pattern (format_of fmt) x }
    ensures { result ≡ one_or_zero (format_of fmt) up x }
{
    let one = bias(fmt.expo) * pow(fmt.frac);
    let sign = sign_word(fmt, x);
    let top = pow(fmt.frac + fmt.expo);
    if up {
        return one + ((top - one) & sign);
    }
    (top + one) & sign
}

// Between -1 and 1 a zero stays.
fn send_below_one(fmt: Format, x: u64, up: bool) -> u64
    requires { Pattern (format_of fmt) x }
    ensures { result ≡ below_one (format_of fmt) up x }
{
    let sent = one_or_zero(fmt, x, up);
    if shift_sign_out(fmt, x) == 0 {
        return x;
    }
    sent
}

// x without the bits under a mask. Where it goes away from zero, one is taken off before the cut, and one above the mask put back after it. Both go by
// the same word, all ones or 0, so that no jump is needed.
fn cut_by(fmt: Format, x: u64, up: bool, mask: Mask) -> u64
    requires { Pattern (format_of fmt) x }
    ensures { result ≡ cut_by (goes_away (format_of fmt) up x) x mask.bits }
{
    let away = away_word(fmt, x, up);
    let less = x.wrapping_add(away);
    mask.clear(less).wrapping_sub(mask.clear(away))
}

// What has no bits behind the point is sent to whole: x, or the canonical NaN for every NaN.
fn direct(fmt: Format, x: u64, up: bool, whole: u64) -> u64
    requires held { Pattern (format_of fmt) x }
    requires stays { whole ≡ one_nan (format_of fmt) x }
    ensures value { result ≡ directed (format_of fmt) up x }
    ensures held { Pattern (format_of fmt) result }
{
    let n = exponent_of(fmt, x);
    let part = cut_by(fmt, x, up, fraction_mask(fmt.frac, n));
    let below = send_below_one(fmt, x, up);
    choose_by_point(fmt, x, n, below, part, whole)
}

pub fn directed_pattern(fmt: Format, x: u64, up: bool) -> u64
    requires { Pattern (format_of fmt) x }
    ensures value { result ≡ directed (format_of fmt) up x }
    ensures held { Pattern (format_of fmt) result }
{
    direct(fmt, x, up, canonicalise(fmt, x))
}

// With flags. Whether x is a number is asked first, by a jump that is guessed rightly, so that neither value nor flags of a number look for a NaN.
pub fn directed_flags(fmt: Format, x: u64, up: bool) -> Flagged<u64, Raised>
    requires { Pattern (format_of fmt) x }
    ensures value { result.value ≡ directed (format_of fmt) up x }
    ensures held { Pattern (format_of fmt) result.value }
    ensures flags { flags_of result.flags ≡ directed_flags (format_of fmt) up x }
{
    if is_number(fmt, x) {
        let r = direct(fmt, x, up, x);
        return Flagged {
            value: r,
            flags: Raised::inexact_if(r != x),
        };
    }
    Flagged {
        value: canonicalise(fmt, x),
        flags: Raised::invalid_if(fmt.is_signalling(x)),
    }
}
