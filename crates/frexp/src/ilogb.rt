// ilogb: the exponent of the leading bit of a number.
ghost use Rattle.std.specs.Prelude.{◌≡◌, true, pos, ◌+ℤ◌};
ghost use Rattle.ieee.specs.Frexp.{ilogb_of};
ghost use Rattle.fmt_fields.specs.Layout.{format_of};
ghost use Rattle.fmt_decode.specs.Aside.{aside};
ghost use Rattle.fmt_decode.specs.Significand.{InRange};

use fmt_decode::norm::{Norm, is_zero_nan_inf, norm_of, unpack_normal};
use fmt_fields::layout::Format;
use fmt_fields::width::Width;

// The C interface has a number for these too: libm's FP_ILOGB0 and FP_ILOGBNAN, of zeros and NaNs.
const NO_EXPONENT: i32 = i32::MIN;

// Of infinities.
const PAST_EXPONENTS: i32 = i32::MAX;

// The exponent of the leading bit of a significand, which is bit frac.
pub fn leading_exponent(fmt: Format, n: Norm) -> i32
    requires { InRange (format_of fmt) n.exp }
    ensures { result ≡ n.exp +ℤ pos fmt.frac }
{
    n.exp + fmt.frac as i32
}

// A zero, an infinity or a NaN.
fn ilogb_aside(fmt: Format, x: u64) -> i32
    requires { aside (format_of fmt) x ≡ true }
    ensures { result ≡ ilogb_of (format_of fmt) x }
{
    if fmt.magnitude_of(x) == fmt.infinity() {
        return PAST_EXPONENTS;
    }
    NO_EXPONENT
}

// Most numbers are normal, so that is asked first.
fn ilogb_pattern(fmt: Format, x: u64) -> i32
    ensures { result ≡ ilogb_of (format_of fmt) x }
{
    if fmt.is_normal(x) {
        return leading_exponent(fmt, unpack_normal(fmt, x));
    }
    if is_zero_nan_inf(fmt, x) {
        return ilogb_aside(fmt, x);
    }
    leading_exponent(fmt, norm_of(fmt, x))
}

pub fn ilogb<W: Width>(x: W) -> i32
    ensures { result ≡ ilogb_of W.layout (W.pattern x) }
{
    ilogb_pattern(W::format(), x.widen())
}
