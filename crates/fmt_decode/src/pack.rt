// The magnitude of a number that the format holds, from a significand and an exponent.
ghost use Rattle.std.specs.Prelude.{◌≡◌, ◌+◌, ◌*◌, ◌^◌, ◌<◌};
ghost use Rattle.ieee.specs.Format.{units, inf};
ghost use Rattle.ieee.specs.Round.{exactly};
ghost use Rattle.fmt_fields.specs.Layout.{format_of};
ghost use Rattle.fmt_decode.specs.Significand.{units_at, InRange};

use crate::norm::low_of;
use fmt_fields::layout::Format;
use word_bits::pow;

// sig times 2^up smallest units. The significand is shifted left until its leading bit is the implicit one, and what remains of up is added to the exponent
// field.
pub fn pack_units(fmt: Format, sig: u64, up: u32) -> u64
    requires { (sig < 2 ^ (fmt.frac + 1)) × (sig * 2 ^ up < units (format_of fmt) (inf (format_of fmt))) }
    ensures { result ≡ exactly (format_of fmt) (sig * 2 ^ up) }
{
    if sig == 0 {
        return 0;
    }
    let most = sig.leading_zeros() - (63 - fmt.frac);
    if up <= most {
        return sig << up;
    }
    (sig << most) + (up - most) as u64 * pow(fmt.frac)
}

// sig times 2^exp. Below the exponent of the smallest units, bits are shifted out of the significand, which is then the magnitude itself.
pub fn pack(fmt: Format, sig: u64, exp: i32) -> u64
    requires { (sig < 2 ^ (fmt.frac + 1)) × InRange (format_of fmt) exp
        × (units_at (format_of fmt) sig exp < units (format_of fmt) (inf (format_of fmt))) }
    ensures { result ≡ exactly (format_of fmt) (units_at (format_of fmt) sig exp) }
{
    let up = exp + low_of(fmt);
    if up < 0 {
        return sig >> up.unsigned_abs();
    }
    pack_units(fmt, sig, up as u32)
}
