// frexp: a number as a fraction, from 1/2 up to 1, times a power of two.
ghost use Rattle.std.specs.Prelude.{◌≡◌, true, ◌≤◌};
ghost use Rattle.ieee.specs.Pattern.{Pattern};
ghost use Rattle.ieee.specs.Frexp.{frexp_of, frexp_exponent};
ghost use Rattle.fmt_fields.specs.Layout.{format_of};
ghost use Rattle.fmt_decode.specs.Aside.{aside};
ghost use Rattle.fmt_decode.specs.Classes.{Nonzero, Finite};
ghost use Rattle.fmt_decode.specs.Significand.{Normalised};

use crate::answer::Frexp;
use crate::ilogb::leading_exponent;
use fmt_decode::norm::{Norm, is_zero_nan_inf, norm_of, unpack_normal};
use fmt_fields::layout::Format;
use fmt_fields::width::Width;
use word_bits::pow;

// A number: the fraction has its sign and its significand, and the exponent field of 1/2, of which the leading bit of the significand adds one.
fn break_number(fmt: Format, x: u64, n: Norm) -> Frexp<u64>
    requires three { 3 ≤ fmt.expo }
    requires some { Nonzero (format_of fmt) x }
    requires finite { Finite (format_of fmt) x }
    requires normalised { Normalised (format_of fmt) x n.sig n.exp n.neg }
    ensures fraction { result.fraction ≡ frexp_of (format_of fmt) x }
    ensures exponent { result.exponent ≡ frexp_exponent (format_of fmt) x }
{
    let half = pow(fmt.expo - 1) - 3;
    Frexp {
        fraction: fmt.with_sign(n.neg, n.sig + half * pow(fmt.frac)),
        exponent: leading_exponent(fmt, n) + 1,
    }
}

// A zero or an infinity is its own fraction.
fn frexp_aside(fmt: Format, x: u64) -> Frexp<u64>
    requires { aside (format_of fmt) x ≡ true }
    ensures fraction { result.fraction ≡ frexp_of (format_of fmt) x }
    ensures exponent { result.exponent ≡ frexp_exponent (format_of fmt) x }
{
    if fmt.magnitude_of(x) > fmt.infinity() {
        return Frexp {
            fraction: fmt.nan(),
            exponent: 0,
        };
    }
    Frexp {
        fraction: x,
        exponent: 0,
    }
}

// Most numbers are normal, so that is asked first.
fn frexp_pattern(fmt: Format, x: u64) -> Frexp<u64>
    requires three { 3 ≤ fmt.expo }
    requires held { Pattern (format_of fmt) x }
    ensures fraction { result.fraction ≡ frexp_of (format_of fmt) x }
    ensures exponent { result.exponent ≡ frexp_exponent (format_of fmt) x }
    ensures held { Pattern (format_of fmt) result.fraction }
{
    if fmt.is_normal(x) {
        return break_number(fmt, x, unpack_normal(fmt, x));
    }
    if is_zero_nan_inf(fmt, x) {
        return frexp_aside(fmt, x);
    }
    break_number(fmt, x, norm_of(fmt, x))
}

pub fn frexp<W: Width>(x: W) -> Frexp<W>
    ensures fraction { W.pattern result.fraction ≡ frexp_of W.layout (W.pattern x) }
    ensures exponent { result.exponent ≡ frexp_exponent W.layout (W.pattern x) }
{
    let broken = frexp_pattern(W::format(), x.widen());
    Frexp {
        fraction: W::narrow(broken.fraction),
        exponent: broken.exponent,
    }
}
