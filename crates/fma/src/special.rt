// The rows of fma: the answers where an operand is an infinity or a NaN, or the product is a zero.
ghost use Rattle.std.specs.Prelude.{◌≡◌};
ghost use Rattle.ieee.specs.Fma.{zero_sum};
ghost use Rattle.fmt_fields.specs.Layout.{format_of};
ghost use Rattle.fmt_fields.specs.Raised.{attribute_of};
ghost use Rattle.fma_laws.specs.Fused.{zero_in};

use fmt_decode::norm::is_zero_nan_inf;
use fmt_fields::attribute::Attribute;
use fmt_fields::layout::Format;
use word_bits::pow;

// The operands of x times y plus z, words that are read by one format. That z is a pattern is asked by clauses, where it may be the answer.
#[derive(Clone, Copy)]
pub struct Operands {
    pub fmt: Format,
    pub x: u64,
    pub y: u64,
    pub z: u64,
}

// The sign of a zero sum of unlike signs: minus only when rounding down. An arm for each, so that a further attribute is not passed over.
fn zero_sign(attribute: Attribute) -> bool
    ensures { result ≡ zero_sum (attribute_of attribute) }
{
    match attribute {
        Attribute::Even => false,
        Attribute::Zero => false,
        Attribute::Down => true,
        Attribute::Up => false,
        Attribute::Away => false,
    }
}

// A zero sum of unlike signs.
pub fn zero_sum(fmt: Format, attribute: Attribute) -> u64
    ensures { result ≡ zero_in (format_of fmt) (attribute_of attribute) }
{
    fmt.with_sign(zero_sign(attribute), 0)
}

impl Operands {
    ghost use Rattle.std.specs.Prelude.{◌≡◌, true, ◌⊎◌};
    ghost use Rattle.ieee.specs.Pattern.{Pattern};
    ghost use Rattle.ieee.specs.Round as ieee;
    ghost use Rattle.ieee.specs.Fma.{fma_in};
    ghost use Rattle.fmt_fields.specs.Layout.{format_of};
    ghost use Rattle.fmt_fields.specs.Raised.{attribute_of};
    ghost use Rattle.fmt_decode.specs.Classes.{Zero, Finite, Infinite, NotNan};
    ghost use Rattle.fma.specs.Special.{special};

    // x or y is infinite: its product with a zero is invalid, and so is its sum with an infinite z of the other sign. Nothing is rounded, so that no attribute
    // has a say.
    pub fn of_infinite_product(self) -> u64
        requires { NotNan (format_of self.fmt) self.x × NotNan (format_of self.fmt) self.y × NotNan (format_of self.fmt) self.z
            × (Infinite (format_of self.fmt) self.x ⊎ Infinite (format_of self.fmt) self.y) }
        ensures { (a : ieee.Attribute) → result ≡ fma_in (format_of self.fmt) a self.x self.y self.z }
    {
        let Operands { fmt, x, y, z } = self;
        if fmt.magnitude_of(x) == 0 {
            return fmt.nan();
        }
        if fmt.magnitude_of(y) == 0 {
            return fmt.nan();
        }
        let neg = fmt.is_negative(x) != fmt.is_negative(y);
        let inf = fmt.infinity();
        let answer = fmt.with_sign(neg, inf);
        if fmt.magnitude_of(z) < inf {
            return answer;
        }
        if neg == fmt.is_negative(z) {
            return answer;
        }
        fmt.nan()
    }

    // A zero product leaves z, but for two zeros of unlike signs.
    #[inline(always)]
    pub fn of_zero_product(self, attribute: Attribute) -> u64
        requires { Pattern (format_of self.fmt) self.z
            × Finite (format_of self.fmt) self.x × Finite (format_of self.fmt) self.y × Finite (format_of self.fmt) self.z
            × (Zero (format_of self.fmt) self.x ⊎ Zero (format_of self.fmt) self.y) }
        ensures { result ≡ fma_in (format_of self.fmt) (attribute_of attribute) self.x self.y self.z }
    {
        let Operands { fmt, x, y, z } = self;
        if fmt.magnitude_of(z) > 0 {
            return z;
        }
        let neg = fmt.is_negative(x) != fmt.is_negative(y);
        if neg == fmt.is_negative(z) {
            return z;
        }
        zero_sum(fmt, attribute)
    }

    // Whether they have a row of their own.
    #[inline(always)]
    pub fn is_special(self) -> bool
        ensures { result ≡ special (format_of self.fmt) self.x self.y self.z }
    {
        let Operands { fmt, x, y, z } = self;
        if is_zero_nan_inf(fmt, x) {
            return true;
        }
        if is_zero_nan_inf(fmt, y) {
            return true;
        }
        fmt.exponent_field(z) == pow(fmt.expo) - 1
    }

    // A NaN anywhere, an infinite product, an infinite z; otherwise the product is a zero.
    #[inline(always)]
    pub fn fma_special(self, attribute: Attribute) -> u64
        requires { Pattern (format_of self.fmt) self.z × (special (format_of self.fmt) self.x self.y self.z ≡ true) }
        ensures { result ≡ fma_in (format_of self.fmt) (attribute_of attribute) self.x self.y self.z }
    {
        let Operands { fmt, x, y, z } = self;
        let inf = fmt.infinity();
        let mx = fmt.magnitude_of(x);
        let my = fmt.magnitude_of(y);
        let mz = fmt.magnitude_of(z);
        if mx > inf {
            return fmt.nan();
        }
        if my > inf {
            return fmt.nan();
        }
        if mz > inf {
            return fmt.nan();
        }
        if mx == inf {
            return self.of_infinite_product();
        }
        if my == inf {
            return self.of_infinite_product();
        }
        if mz == inf {
            return z;
        }
        self.of_zero_product(attribute)
    }
}
