// Where the point stands in a pattern, and choices by it. Nothing here needs a jump.
ghost use Rattle.std.specs.Prelude.{◌≡◌, ◌+◌, ◌-◌, ◌*◌, ◌^◌, ◌<◌, ◌≤◌, nat_lt};
ghost use Rattle.ieee.specs.Format.{inf};
ghost use Rattle.ieee.specs.Pattern.{magnitude};
ghost use Rattle.fmt_fields.specs.Layout.{format_of};
ghost use Rattle.integral.specs.Point.{exponent_of, behind_of, by_point, tail_of, one_nan};

use crate::mask::Mask;
use fmt_fields::layout::Format;
use word_bits::pow;

// The exponent field of 1. `bias` takes the number of exponent bits alone: a `Format` would ask more of callers.
pub fn bias(expo: u32) -> u64
    requires { (2 ≤ expo) × (expo ≤ 16) }
    ensures { result ≡ 2 ^ (expo - 1) - 1 }
{
    pow(expo - 1) - 1
}

// The exponent: how many bits of the fraction stand before the point. Below 1 it wraps to a number far greater than that.
pub fn exponent_of(fmt: Format, x: u64) -> u64
    ensures { result ≡ exponent_of (format_of fmt) x }
{
    fmt.exponent_field(x).wrapping_sub(bias(fmt.expo))
}

// The bits behind the point, all set, where n stand before it. The value for an n that has wrapped is unused. `fraction_mask` takes the number
// of fraction bits alone: a `Format` would ask more of callers.
pub fn fraction_mask(frac: u32, n: u64) -> Mask
    requires { frac < 64 }
    ensures { result.bits ≡ behind_of frac n }
{
    Mask {
        bits: (pow(frac) - 1) >> (n % 64),
    }
}

// One of three answers, all computed beforehand: for a number below 1, for a point within the fraction, and for the rest.
pub fn choose_by_point(fmt: Format, x: u64, n: u64, below: u64, part: u64, whole: u64) -> u64
    requires { n ≡ exponent_of (format_of fmt) x }
    ensures { result ≡ by_point (format_of fmt) x below part whole }
{
    if n < fmt.frac as u64 {
        return part;
    }
    if fmt.exponent_field(x) < bias(fmt.expo) {
        return below;
    }
    whole
}

// The bits behind the point, all set: of a number below 1 all but the sign; of a whole number, an infinity or a NaN none.
pub fn tail_mask(fmt: Format, x: u64) -> Mask
    ensures { result.bits ≡ tail_of (format_of fmt) x }
{
    let n = exponent_of(fmt, x);
    let all = pow(fmt.frac + fmt.expo) - 1;
    let part = fraction_mask(fmt.frac, n).bits;
    Mask {
        bits: choose_by_point(fmt, x, n, all, part, 0),
    }
}

// The magnitude at the top of a word: the sign is shifted out.
pub fn shift_sign_out(fmt: Format, x: u64) -> u64
    ensures { result ≡ magnitude (format_of fmt) x * 2 ^ (64 - (fmt.frac + fmt.expo)) }
{
    x << (64 - (fmt.frac + fmt.expo))
}

// Whether x is a number: only infinities and NaNs have the last exponent field.
pub fn is_number(fmt: Format, x: u64) -> bool
    ensures { result ≡ nat_lt (magnitude (format_of fmt) x) (inf (format_of fmt)) }
{
    fmt.exponent_field(x) < pow(fmt.expo) - 1
}

// x, or the canonical NaN for every NaN, whose magnitude exceeds infinity.
pub fn canonicalise(fmt: Format, x: u64) -> u64
    ensures { result ≡ one_nan (format_of fmt) x }
{
    let one = fmt.nan();
    let inf = shift_sign_out(fmt, fmt.infinity());
    if shift_sign_out(fmt, x) > inf {
        return one;
    }
    x
}
