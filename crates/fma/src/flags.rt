// The flags of the rows of fma.
use crate::special::Operands;
use fmt_fields::env::Raised;

impl Operands {
    ghost use Rattle.std.specs.Prelude.{◌≡◌, true, false};
    ghost use Rattle.ieee.specs.Pattern.{Pattern, kind};
    ghost use Rattle.ieee.specs.Round as ieee;
    ghost use Rattle.ieee.specs.Fma.{fma_flags_in, clashes, signalled};
    ghost use Rattle.fmt_fields.specs.Layout.{format_of};
    ghost use Rattle.fmt_fields.specs.Raised.{flags_of};
    ghost use Rattle.fma.specs.Special.{special, opposed};

    // Whether an operand signals.
    fn any_signals(self) -> bool
        ensures { result ≡ signalled (format_of self.fmt) self.x self.y self.z }
    {
        let Operands { fmt, x, y, z } = self;
        fmt.is_signalling(x) || fmt.is_signalling(y) || fmt.is_signalling(z)
    }

    // Whether a zero meets an infinity in the product.
    fn is_clash(self) -> bool
        ensures { result ≡ clashes (kind (format_of self.fmt) self.x) (kind (format_of self.fmt) self.y) }
    {
        let inf = self.fmt.infinity();
        let mx = self.fmt.magnitude_of(self.x);
        let my = self.fmt.magnitude_of(self.y);
        if mx == inf {
            return my == 0;
        }
        if my == inf {
            return mx == 0;
        }
        false
    }

    // Whether an infinite product meets an infinite z of the other sign. The product is infinite where the larger factor is, as no zero stands beside it.
    fn is_opposed(self) -> bool
        requires { clashes (kind (format_of self.fmt) self.x) (kind (format_of self.fmt) self.y) ≡ false }
        ensures { result ≡ opposed (format_of self.fmt) self.x self.y self.z }
    {
        let Operands { fmt, x, y, z } = self;
        let inf = fmt.infinity();
        let top = fmt.magnitude_of(x).max(fmt.magnitude_of(y));
        if fmt.magnitude_of(z) != inf {
            return false;
        }
        if top != inf {
            return false;
        }
        let neg = fmt.is_negative(x) != fmt.is_negative(y);
        neg != fmt.is_negative(z)
    }

    // Invalid or nothing: what is left over, a zero product, is exact.
    pub fn special_flags(self) -> Raised
        requires { Pattern (format_of self.fmt) self.z × (special (format_of self.fmt) self.x self.y self.z ≡ true) }
        ensures { (a : ieee.Attribute) → flags_of result ≡ fma_flags_in (format_of self.fmt) a self.x self.y self.z }
    {
        if self.any_signals() {
            return Raised::invalid_if(true);
        }
        if self.is_clash() {
            return Raised::invalid_if(true);
        }
        Raised::invalid_if(self.is_opposed())
    }
}
