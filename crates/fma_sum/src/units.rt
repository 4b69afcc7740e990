// The exponent of a fused sum in smallest units.
ghost use Rattle.std.specs.Prelude.{◌≡◌, ◌+◌, ◌-◌, ◌<◌, ◌^◌, pos, ◌+ℤ◌, ◌-ℤ◌};
ghost use Rattle.std.specs.Int.Signed.{mag};
ghost use Rattle.ieee.specs.Format.{low};
ghost use Rattle.fmt_fields.specs.Layout.{format_of};

use fmt_decode::norm::low_of;
use fmt_fields::layout::Format;

// Less one, since a step is half of the product's unit.
pub fn exponent_in_units(fmt: Format, exp: i32) -> i32
    requires { mag exp < 2 ^ 19 + 2 ^ 18 + 2 ^ 7 }
    ensures { (result ≡ exp +ℤ pos (low (format_of fmt)) -ℤ pos 1) × (mag result < 2 ^ 20 - 64) }
{
    exp + low_of(fmt) - 1
}
