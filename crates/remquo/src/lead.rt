// How far one exponent exceeds another.
ghost use Rattle.std.specs.Prelude.{◌≡◌, ◌^◌, ◌<◌, pos, ◌+ℤ◌, ◌-ℤ◌};
ghost use Rattle.std.specs.Int.Signed.{mag};
ghost use Rattle.fmt_exponents.specs.Field.{above};

use fmt_decode::norm::Norm;

// How far the exponent of a exceeds that of b less 2, or 0 where it does not: one number, as the definition `above` has it.
pub fn exponent_lead(a: Norm, b: Norm) -> u32
    requires { (mag a.exp < 2 ^ 17) × (mag b.exp < 2 ^ 17) }
    ensures { result ≡ above (a.exp -ℤ b.exp +ℤ pos 2) }
{
    let far = a.exp - b.exp + 2;
    if far < 0 {
        return 0;
    }
    far as u32
}
