// A number times 2^n by its class: where the exponent field goes, and where the value lies if it is no normal number.
ghost use Rattle.std.specs.Prelude.{◌≡◌, true, false};
ghost use Rattle.ieee.specs.Pattern.{fraction};
ghost use Rattle.ieee.specs.Scalbn.{reach, clamp};
ghost use Rattle.fmt_exponents.specs.Field.{above};
ghost use Rattle.fmt_fields.specs.Layout.{format_of};
ghost use Rattle.fmt_fields.specs.Normal.{normal, normal_field};
ghost use Rattle.round_laws.specs.Location.{stretched};
ghost use Rattle.round_locate.specs.Located.{Locates};
ghost use Rattle.scalbn_laws.specs.Normal.{full_of, full_exp, moved_to};

use crate::moves::locate_below_unit;
use fmt_exponents::{bits_below_unit, clamp_exponent, field_or_zero, move_field};
use fmt_fields::layout::Format;
use round_locate::locate::{Located, locate};
use word_bits::pow;

// The exponent field of x moved by n, or 0 where that is negative.
pub fn moved_field(fmt: Format, x: u64, n: i32) -> u64
    ensures { result ≡ above (moved_to (format_of fmt) x n) }
{
    field_or_zero(move_field(fmt.exponent_field(x), n))
}

// A normal x times 2^n where that is no normal number: bits of the significand drop below the smallest unit, or the value is past the largest number.
pub fn locate_moved(fmt: Format, x: u64, n: i32) -> Located
    requires { (normal (format_of fmt) x ≡ true) × (normal_field fmt.expo (above (moved_to (format_of fmt) x n)) ≡ false) }
    ensures { Locates (format_of fmt) (stretched (full_of (format_of fmt) x) (full_exp (format_of fmt) x n)) result }
{
    let to = move_field(fmt.exponent_field(x), n);
    if field_or_zero(to) == 0 {
        return locate_below_unit(fmt, x, bits_below_unit(to));
    }
    Located {
        below: fmt.infinity() - 1,
        location: 3,
        high: true,
        beyond: true,
        inside: false,
    }
}

// A subnormal x, or a zero, times 2^n.
pub fn locate_subnormal(fmt: Format, x: u64, n: i32) -> Located
    ensures { Locates (format_of fmt) (stretched (fraction (format_of fmt) x) (clamp (reach (format_of fmt)) n)) result }
{
    let near = clamp_exponent(pow(fmt.expo) as u32 + fmt.frac, n);
    locate(fmt, fmt.fraction_field(x), near)
}
