// fmod: the remainder of x by y, toward zero, with the sign of x; always exact.
ghost use Rattle.std.specs.Prelude.{◌≡◌, true, false, ◌+◌, ◌-◌, ◌<◌, ◌^◌, T, pos, ◌-ℤ◌};
ghost use Rattle.std.specs.Int.Signed.{le_z, mag};
ghost use Rattle.ieee.specs.Pattern.{Pattern};
ghost use Rattle.ieee.specs.Fmod.{fmod_of};
ghost use Rattle.fmt_fields.specs.Layout.{format_of};
ghost use Rattle.fmt_decode.specs.Significand.{significand, units_exp};
ghost use Rattle.fmod.specs.Division.{settled, left_of};

use crate::division::Division;
use crate::routes::Reduced;
use fmt_decode::norm::{Norm, unpack, unpack_normal};
use fmt_decode::pack::pack;
use fmt_decode::remainder::has_no_remainder;
use fmt_fields::layout::Format;

// Whether no division is needed. Magnitudes compare as the numbers that they stand for, so one comparison finds an x below y, and every x where y is infinite.
fn is_settled(fmt: Format, x: u64, y: u64) -> bool
    ensures { result ≡ settled (format_of fmt) x y }
{
    if has_no_remainder(fmt, x, y) {
        return true;
    }
    fmt.magnitude_of(x) < fmt.magnitude_of(y)
}

// The answer there.
fn settled_answer(fmt: Format, x: u64, y: u64) -> u64
    requires { Pattern (format_of fmt) x × (settled (format_of fmt) x y ≡ true) }
    ensures { (result ≡ fmod_of (format_of fmt) x y) × Pattern (format_of fmt) result }
{
    if has_no_remainder(fmt, x, y) {
        return fmt.nan();
    }
    x
}

// Two unpacked numbers as a division: the shift is the difference of their exponents.
fn as_division(a: Norm, b: Norm) -> Division
    requires { (mag a.exp < 2 ^ 17) × (mag b.exp < 2 ^ 17) × T (le_z b.exp a.exp) × (0 < b.sig) }
    ensures { (result.sig ≡ a.sig) × (pos result.shift ≡ a.exp -ℤ b.exp) × (result.by ≡ b.sig) }
{
    Division {
        sig: a.sig,
        shift: (a.exp - b.exp) as u32,
        by: b.sig,
    }
}

// Both operands as their fields give them: normalised, a subnormal one would lengthen the shift. Where y is normal so is x, which is not below it.
fn division_of(fmt: Format, x: u64, y: u64) -> Division
    requires { settled (format_of fmt) x y ≡ false }
    ensures { ((result.sig ≡ significand (format_of fmt) x)
        × (result.shift ≡ units_exp (format_of fmt) x - units_exp (format_of fmt) y)
        × (result.by ≡ significand (format_of fmt) y))
        × (result.sig < 2 ^ (fmt.frac + 1)) × (result.by < 2 ^ (fmt.frac + 1)) }
{
    if fmt.exponent_field(y) > 0 {
        return as_division(unpack_normal(fmt, x), unpack_normal(fmt, y));
    }
    as_division(unpack(fmt, x), unpack(fmt, y))
}

// The remainder of the significands at the exponent of y, with the sign of x. A zero has that sign too.
fn finish(fmt: Format, x: u64, y: u64, left: u64) -> u64
    requires { (settled (format_of fmt) x y ≡ false) × (left ≡ left_of (format_of fmt) x y) }
    ensures { (result ≡ fmod_of (format_of fmt) x y) × Pattern (format_of fmt) result }
{
    let b = unpack(fmt, y);
    let m = pack(fmt, left, b.exp);
    fmt.with_sign(fmt.is_negative(x), m)
}

pub fn fmod<W: Reduced>(x: W, y: W) -> W
    ensures { W.pattern result ≡ fmod_of W.layout (W.pattern x) (W.pattern y) }
{
    let fmt = W::format();
    let a = x.widen();
    let b = y.widen();
    if is_settled(fmt, a, b) {
        return W::narrow(settled_answer(fmt, a, b));
    }
    let d = division_of(fmt, a, b);
    let left = W::reduction(d);
    W::narrow(finish(fmt, a, b, left))
}
