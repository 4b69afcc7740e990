// The third number of a fused sum, unpacked.
ghost use Rattle.std.specs.Prelude.{◌≡◌, ◌+◌, ◌<◌, ◌^◌, eqb};
ghost use Rattle.std.specs.Int.Signed.{mag};
ghost use Rattle.ieee.specs.Pattern.{magnitude, minus};
ghost use Rattle.fmt_fields.specs.Layout.{format_of};
ghost use Rattle.fmt_decode.specs.Classes.{Finite};
ghost use Rattle.fma_laws.specs.Fused.{third_sig_of, third_exp_of};

use fmt_decode::norm::{Norm, norm_of};
use fmt_fields::layout::Format;

// Below the exponent of every product: -2^18.
const LOWEST: i32 = -262144;

// Whether z is a zero. Most numbers show by their exponent field that they are not.
fn is_zero(fmt: Format, z: u64) -> bool
    ensures { result ≡ eqb (magnitude (format_of fmt) z) 0 }
{
    if fmt.exponent_field(z) > 0 {
        return false;
    }
    fmt.fraction_field(z) == 0
}

// Its significand doubled, with its exponent and its sign. A zero has the lowest exponent, so that the product beside it keeps every bit.
pub fn third_of(fmt: Format, z: u64) -> Norm
    requires { Finite (format_of fmt) z }
    ensures { ((result.sig ≡ third_sig_of (format_of fmt) z) × (result.exp ≡ third_exp_of (format_of fmt) z) × (result.neg ≡ minus (format_of fmt) z))
        × (result.sig < 2 ^ (fmt.frac + 2)) × (mag result.exp < 2 ^ 18) }
{
    if is_zero(fmt, z) {
        return Norm {
            sig: 0,
            exp: LOWEST,
            neg: fmt.is_negative(z),
        };
    }
    let n = norm_of(fmt, z);
    Norm {
        sig: n.sig * 2,
        exp: n.exp,
        neg: n.neg,
    }
}
