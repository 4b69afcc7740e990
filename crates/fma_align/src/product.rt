// The product of two unpacked numbers, doubled to be even.
ghost use Rattle.std.specs.Prelude.{◌≡◌, ◌*◌, ◌<◌, ◌^◌, ◌+ℤ◌};
ghost use Rattle.std.specs.Int.Signed.{mag};
ghost use Rattle.ieee.specs.Pattern.{unlike};

use crate::magnitude::Magnitude;
use fmt_decode::norm::Norm;

// sig times 2^exp, negative where neg is set, as `Norm` is of one word. A bound of exp stands in the contracts, not here: a product's is 2^18, and aligning and
// folding each add to it.
#[derive(Clone, Copy)]
pub struct Scaled<S> {
    pub sig: S,
    pub exp: i32,
    pub neg: bool,
}

pub fn multiply<S: Magnitude>(x: Norm, y: Norm) -> Scaled<S>
    requires { (x.sig < 2 ^ 63) × (2 * (x.sig * y.sig) < 2 ^ S.size) × (mag x.exp < 2 ^ 18) × (mag y.exp < 2 ^ 18) }
    ensures { (S.number result.sig ≡ 2 * (x.sig * y.sig)) × (result.exp ≡ x.exp +ℤ y.exp) × (result.neg ≡ unlike x.neg y.neg) }
{
    Scaled {
        sig: S::product(x.sig * 2, y.sig),
        exp: x.exp + y.exp,
        neg: x.neg != y.neg,
    }
}
