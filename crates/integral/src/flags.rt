// The flags of a pattern sent to a whole number.
ghost use Rattle.std.specs.Prelude.{◌≡◌};
ghost use Rattle.ieee.specs.Pattern.{kind};
ghost use Rattle.ieee.specs.Whole.{whole_flags_by};
ghost use Rattle.fmt_fields.specs.Layout.{format_of};
ghost use Rattle.fmt_fields.specs.Raised.{flags_of};

use crate::point::shift_sign_out;
use fmt_fields::env::Raised;
use fmt_fields::layout::Format;

// x was sent to r. A number, whose magnitude is below infinity, is inexact where it was changed; an infinity raises nothing, and a NaN is invalid where it signals.
pub fn flags(fmt: Format, x: u64, r: u64) -> Raised
    ensures { flags_of result ≡ whole_flags_by (format_of fmt) x r (kind (format_of fmt) x) }
{
    let inf = shift_sign_out(fmt, fmt.infinity());
    if shift_sign_out(fmt, x) < inf {
        return Raised::inexact_if(r != x);
    }
    Raised::invalid_if(fmt.is_signalling(x))
}
