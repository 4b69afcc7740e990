// Locates a significand times a power of two: its lower neighbour in the format, and its location.
ghost use Rattle.std.specs.Prelude.{◌≡◌, ◌+◌, ◌*◌, ◌/◌, ◌%◌, ◌^◌, ◌<◌, ◌≤◌, false};
ghost use Rattle.std.specs.Int.Signed.{mag};
ghost use Rattle.round_laws.specs.Location.{part, high_part, stretched};
ghost use Rattle.round_laws.specs.Aligned.{filled_at};
ghost use Rattle.fmt_fields.specs.Layout.{format_of};
ghost use Rattle.round_locate.specs.Located.{Locates};

use crate::normalise::normalise;
use crate::shift_out::shift_out;
use fmt_fields::layout::Format;
use word_bits::pow;

// The offset of normalised exponents: 2^21.
const LIFT: u32 = 2097152;

// The lower neighbour and the location, which decide every rounding; and for the flags, whether the value is three quarters of the way to the next number or
// more, whether it is at that number or past it, as only a value past the largest one is, and whether the neighbour is far enough from both ends of the range
// that inexact alone can be raised. The bounds of neighbour and location stand in clauses: that of the neighbour needs the format, which is not here.
#[derive(Clone, Copy)]
pub struct Located {
    pub below: u64,
    // 0 for none, 1, 2 and 3 for before, at and past the middle: a number, since choosing adds it to the last bit and compares the sum.
    pub location: u64,
    pub high: bool,
    pub beyond: bool,
    pub inside: bool,
}

// A significand without its last k bits, under an exponent field of up, and the location of these bits.
fn shift_out_under(frac: u32, sig: u64, up: u64, k: u32, inside: bool) -> Located
    requires { (frac < 63) × (1 ≤ k) × (k ≤ 64) × (up * 2 ^ frac + sig / 2 ^ k < 2 ^ 63) }
    ensures { (result.below ≡ up * 2 ^ frac + sig / 2 ^ k) × (result.location ≡ part (sig % 2 ^ k) (2 ^ k))
        × (result.high ≡ high_part (sig % 2 ^ k) (2 ^ k)) × (result.beyond ≡ false) × (result.inside ≡ inside) }
{
    let c = shift_out(sig, k);
    Located {
        below: up * pow(frac) + c.kept,
        location: c.location,
        high: c.high,
        beyond: false,
        inside,
    }
}

// Normal numbers come first, and shed the bits that the format has no room for, those of the last exponent field by themselves; below them the field wraps to one
// past the last. Past the largest finite number, that one is the lower neighbour. Below the least normal number more bits are shed, or all of them: then they are less than half a unit, and one bit far down stands for them.
fn locate_normalised(fmt: Format, sig: u64, at: u32) -> Located
    requires { (2 ^ 63 ≤ sig) × (at < 2 ^ 22) }
    ensures { Locates (format_of fmt) (filled_at sig at) result }
{
    let extra = 63 - fmt.frac;
    let least = LIFT - extra;
    let up = at.wrapping_sub(least) as u64;
    let last = pow(fmt.expo) - 3;
    if up < last {
        return shift_out_under(fmt.frac, sig, up, extra, true);
    }
    if up == last {
        return shift_out_under(fmt.frac, sig, up, extra, false);
    }
    if at >= least {
        return Located {
            below: fmt.infinity() - 1,
            location: 3,
            high: true,
            beyond: true,
            inside: false,
        };
    }
    if at + 64 < LIFT {
        return shift_out_under(fmt.frac, 1, 0, 64, false);
    }
    shift_out_under(fmt.frac, sig, 0, LIFT - at, false)
}

// The lower neighbour and the location of sig times 2^exp smallest units. The bound is on a parameter alone, an i32 of which each caller has its own closer bound.
pub fn locate(fmt: Format, sig: u64, exp: i32) -> Located
    requires { mag exp ≤ 2 ^ 20 }
    ensures { Locates (format_of fmt) (stretched sig exp) result }
{
    if sig == 0 {
        return Located {
            below: 0,
            location: 0,
            high: false,
            beyond: false,
            inside: false,
        };
    }
    let n = normalise(sig, exp);
    locate_normalised(fmt, n.sig, n.at)
}
