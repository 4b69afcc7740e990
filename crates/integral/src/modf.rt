// modf: a number cut at its point into a whole part and a fraction, both with its sign; always exact.
ghost use Rattle.std.specs.Prelude.{◌≡◌, ◌<◌, ◌≤◌};
ghost use Rattle.ieee.specs.Pattern.{Pattern};
ghost use Rattle.ieee.specs.Modf.{modf_of, modf_whole};
ghost use Rattle.fmt_fields.specs.Layout.{format_of};
ghost use Rattle.integral.specs.Point.{exponent_of};

use crate::point::{bias, exponent_of, fraction_mask};
use fmt_decode::pack::pack_units;
use fmt_fields::layout::Format;
use fmt_fields::width::Width;

// What is behind the point, and what is before it.
#[derive(Clone, Copy)]
pub struct Parted<W> {
    pub fraction: W,
    pub whole: W,
}

// A point within the fraction, with n bits of it before the point: those behind it are a significand with the exponent of x.
#[inline(always)]
fn modf_within(fmt: Format, x: u64, n: u64) -> Parted<u64>
    requires held { Pattern (format_of fmt) x }
    requires exponent { n ≡ exponent_of (format_of fmt) x }
    requires within { n < fmt.frac }
    ensures fraction { result.fraction ≡ modf_of (format_of fmt) x }
    ensures whole { result.whole ≡ modf_whole (format_of fmt) x }
{
    let tail = fraction_mask(fmt.frac, n).under(x);
    let up = fmt.exponent_field(x) - 1;
    let m = pack_units(fmt, tail, up as u32);
    Parted {
        fraction: fmt.with_sign(fmt.is_negative(x), m),
        whole: x - tail,
    }
}

// No point within the fraction: x is all fraction, or all whole part, as an infinity is too. Both parts of a NaN are NaNs.
#[inline(always)]
fn modf_undivided(fmt: Format, x: u64) -> Parted<u64>
    requires held { Pattern (format_of fmt) x }
    requires undivided { fmt.frac ≤ exponent_of (format_of fmt) x }
    ensures fraction { result.fraction ≡ modf_of (format_of fmt) x }
    ensures whole { result.whole ≡ modf_whole (format_of fmt) x }
{
    let zero = fmt.with_sign(fmt.is_negative(x), 0);
    if fmt.exponent_field(x) < bias(fmt.expo) {
        return Parted {
            fraction: x,
            whole: zero,
        };
    }
    if fmt.magnitude_of(x) > fmt.infinity() {
        return Parted {
            fraction: fmt.nan(),
            whole: fmt.nan(),
        };
    }
    Parted {
        fraction: zero,
        whole: x,
    }
}

// Inlined with both ways, so that the compiler sees that from 1 on the exponent is past every shift of pack_units, and leaves out the test.
#[inline(always)]
fn modf_pattern(fmt: Format, x: u64) -> Parted<u64>
    requires { Pattern (format_of fmt) x }
    ensures fraction { result.fraction ≡ modf_of (format_of fmt) x }
    ensures whole { result.whole ≡ modf_whole (format_of fmt) x }
    ensures fraction_held { Pattern (format_of fmt) result.fraction }
    ensures whole_held { Pattern (format_of fmt) result.whole }
{
    let n = exponent_of(fmt, x);
    if n < fmt.frac as u64 {
        return modf_within(fmt, x, n);
    }
    modf_undivided(fmt, x)
}

pub fn modf<W: Width>(x: W) -> Parted<W>
    ensures fraction { W.pattern result.fraction ≡ modf_of W.layout (W.pattern x) }
    ensures whole { W.pattern result.whole ≡ modf_whole W.layout (W.pattern x) }
{
    let parts = modf_pattern(W::format(), x.widen());
    Parted {
        fraction: W::narrow(parts.fraction),
        whole: W::narrow(parts.whole),
    }
}
