// A number unpacked: a significand, a signed exponent and a sign; and the patterns that are set aside.
ghost use Rattle.std.specs.Prelude.{◌≡◌, suc, ◌^◌, ◌<◌, pos, ◌-ℤ◌};
ghost use Rattle.std.specs.Int.Count.{count_leading_zeros};
ghost use Rattle.ieee.specs.Format.{low};
ghost use Rattle.ieee.specs.Pattern.{field};
ghost use Rattle.fmt_fields.specs.Layout.{format_of};
ghost use Rattle.fmt_decode.specs.Aside.{aside};
ghost use Rattle.fmt_decode.specs.Classes.{Nonzero};
ghost use Rattle.fmt_decode.specs.Significand.{Unpacked, Normalised};

use fmt_fields::layout::Format;
use word_bits::pow;

// sig times 2^exp, negative where neg is set. How far exp goes needs the format, which is not here, so that its bounds stand in clauses.
#[derive(Clone, Copy)]
pub struct Norm {
    pub sig: u64,
    pub exp: i32,
    pub neg: bool,
}

// Whether x is a zero, an infinity or a NaN. Most operands are normal numbers, so that is asked first.
pub fn is_zero_nan_inf(fmt: Format, x: u64) -> bool
    ensures { result ≡ aside (format_of fmt) x }
{
    if fmt.is_normal(x) {
        return false;
    }
    if fmt.exponent_field(x) > 0 {
        return true;
    }
    fmt.fraction_field(x) == 0
}

// The smallest unit is 2^-low: low is 1074 at 64 bits, 149 at 32 bits.
pub fn low_of(fmt: Format) -> i32
    ensures { result ≡ pos (low (format_of fmt)) }
{
    (pow(fmt.expo - 1) + fmt.frac as u64 - 2) as i32
}

// The power of two of a number, from its exponent in smallest units.
#[inline(always)]
fn exponent_of(fmt: Format, up: u64) -> i32
    requires { up < 2 ^ 16 }
    ensures { result ≡ pos up -ℤ pos (low (format_of fmt)) }
{
    up as i32 - low_of(fmt)
}

// A normal number: its leading bit, which is implicit, stands above the fraction.
#[inline(always)]
pub fn unpack_normal(fmt: Format, x: u64) -> Norm
    requires { 0 < field (format_of fmt) x }
    ensures { Unpacked (format_of fmt) x result.sig result.exp result.neg }
{
    let up = fmt.exponent_field(x) - 1;
    Norm {
        sig: pow(fmt.frac) + fmt.fraction_field(x),
        exp: exponent_of(fmt, up),
        neg: fmt.is_negative(x),
    }
}

// A number as its fields give it. A subnormal number has no implicit bit, and the exponent of the least normal ones.
#[inline(always)]
pub fn unpack(fmt: Format, x: u64) -> Norm
    ensures { Unpacked (format_of fmt) x result.sig result.exp result.neg }
{
    if fmt.exponent_field(x) > 0 {
        return unpack_normal(fmt, x);
    }
    Norm {
        sig: fmt.fraction_field(x),
        exp: exponent_of(fmt, 0),
        neg: fmt.is_negative(x),
    }
}

// How far to shift a significand left until its leading bit is bit frac: its leading zeros in the word, less those above that bit.
fn zeros_before(frac: u32, t: u64) -> u32
    requires { (frac < 62) × (0 < t) × (t < 2 ^ frac) }
    ensures { result ≡ count_leading_zeros (suc frac) t }
{
    t.leading_zeros() - (63 - frac)
}

// A number that is not zero, normalised: the leading bit of the significand is bit frac. A subnormal one is shifted left by its leading zeros.
// The exponent is at least -(low + frac): -1126 at 64 bits, -172 at 32 bits.
#[inline(always)]
pub fn norm_of(fmt: Format, x: u64) -> Norm
    requires { Nonzero (format_of fmt) x }
    ensures { Normalised (format_of fmt) x result.sig result.exp result.neg }
{
    let n = unpack(fmt, x);
    if n.sig >= pow(fmt.frac) {
        return n;
    }
    let zeros = zeros_before(fmt.frac, n.sig);
    Norm {
        sig: n.sig << zeros,
        exp: n.exp - zeros as i32,
        neg: n.neg,
    }
}
