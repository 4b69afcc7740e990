// Operands that have no remainder.
ghost use Rattle.std.specs.Prelude.{◌≡◌};
ghost use Rattle.fmt_fields.specs.Layout.{format_of};
ghost use Rattle.fmt_decode.specs.Rows.{no_remainder};

use fmt_fields::layout::Format;

// Whether there is no remainder: x infinite or a NaN, y zero or a NaN. A zero less one wraps to a word past infinity, where the NaNs are.
pub fn has_no_remainder(fmt: Format, x: u64, y: u64) -> bool
    ensures { result ≡ no_remainder (format_of fmt) x y }
{
    let inf = fmt.infinity();
    if fmt.magnitude_of(x) >= inf {
        return true;
    }
    fmt.magnitude_of(y).wrapping_sub(1) >= inf
}
