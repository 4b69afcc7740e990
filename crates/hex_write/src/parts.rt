// The parts of a number's text: the digits behind the point, and the exponent.
ghost use Rattle.std.specs.Prelude.{◌^◌, ◌≤◌, ◌<◌};
ghost use Rattle.fmt_fields.specs.Layout.{format_of};
ghost use Rattle.hex_write.specs.Parts.{FractionOf, ExponentOf};

use fmt_fields::layout::Format;
use text_numbers::write::digit_count;
use word_bits::pow;

// The digits behind the point, as one number, and how many there are.
#[derive(Clone, Copy)]
pub struct Fraction {
    pub digits: u64,
    pub count: usize,
}

// An exponent by its sign and its size, and how many decimal digits that has.
#[derive(Clone, Copy)]
pub struct Exponent {
    pub below: bool,
    pub size: u64,
    pub count: usize,
}

// The digits of a fraction t, whose bits stand in them from the left, without the zeros at their end.
pub fn fraction_part(fmt: Format, t: u64) -> Fraction
    requires { t < 2 ^ fmt.frac }
    ensures { FractionOf (format_of fmt) t result.count result.digits }
{
    if t == 0 {
        return Fraction {
            digits: 0,
            count: 0,
        };
    }
    let all = (fmt.frac + 3) / 4;
    let aligned = t * pow(4 * all - fmt.frac);
    let zeros = aligned.trailing_zeros() / 4;
    Fraction {
        digits: aligned / pow(4 * zeros),
        count: (all - zeros) as usize,
    }
}

// The exponent of a number by its exponent field, which is 1 for a subnormal number too.
pub fn exponent_part(expo: u32, field: u64) -> Exponent
    requires least { 2 ≤ expo }
    requires most { expo ≤ 16 }
    requires field { field < 2 ^ expo }
    ensures { ExponentOf expo field result.below result.count result.size }
{
    let bias = pow(expo - 1) - 1;
    let size = field.abs_diff(bias);
    Exponent {
        below: field < bias,
        size,
        count: digit_count(size),
    }
}
