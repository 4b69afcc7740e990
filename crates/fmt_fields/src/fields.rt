// The fields of a pattern: exponent, fraction and sign; and a pattern made of a sign and a magnitude.
ghost use Rattle.std.specs.Prelude.{◌≡◌, ◌≤◌};
ghost use Rattle.fmt_fields.specs.Normal.{normal_field};

use crate::layout::Format;
use word_bits::pow;

// Whether an exponent field is that of normal numbers, by the number of exponent bits alone. Less one, a field of 0 wraps past all others.
pub fn is_normal_field(expo: u32, field: u64) -> bool
    requires least { 2 ≤ expo }
    requires most { expo ≤ 16 }
    ensures { result ≡ normal_field expo field }
{
    let last = pow(expo) - 2;
    field.wrapping_sub(1) < last
}

impl Format {
    ghost use Rattle.std.specs.Prelude.{◌≡◌, ◌+◌, ◌^◌, ◌<◌};
    ghost use Rattle.ieee.specs.Pattern.{minus, field, fraction, signed};
    ghost use Rattle.fmt_fields.specs.Layout.{format_of};
    ghost use Rattle.fmt_fields.specs.Normal.{normal, normal_field};

    pub fn exponent_field(self, x: u64) -> u64
        ensures { result ≡ field (format_of self) x }
    {
        x / pow(self.frac) % pow(self.expo)
    }

    pub fn fraction_field(self, x: u64) -> u64
        ensures { result ≡ fraction (format_of self) x }
    {
        x % pow(self.frac)
    }

    pub fn is_negative(self, x: u64) -> bool
        ensures { result ≡ minus (format_of self) x }
    {
        x >= pow(self.frac + self.expo)
    }

    // Whether an exponent field is that of normal numbers.
    pub fn is_normal_field(self, field: u64) -> bool
        ensures { result ≡ normal_field self.expo field }
    {
        is_normal_field(self.expo, field)
    }

    pub fn is_normal(self, x: u64) -> bool
        ensures { result ≡ normal (format_of self) x }
    {
        self.is_normal_field(self.exponent_field(x))
    }

    // The pattern of a sign and a magnitude.
    pub fn with_sign(self, neg: bool, m: u64) -> u64
        requires { m < 2 ^ (self.frac + self.expo) }
        ensures { result ≡ signed (format_of self) neg m }
    {
        let top = pow(self.frac + self.expo);
        if neg { top + m } else { m }
    }
}
