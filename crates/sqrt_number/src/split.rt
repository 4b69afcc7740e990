// A positive number split for its root: a radicand, and an exponent to be halved.
ghost use Rattle.std.specs.Prelude.{◌≡◌, ◌+◌, ◌-◌, ◌*◌, ◌/◌, ◌%◌, ◌≤◌, ◌^◌, pos, ◌+ℤ◌};
ghost use Rattle.fmt_fields.specs.Layout.{format_of};
ghost use Rattle.fmt_decode.specs.Significand.{InRange};
ghost use Rattle.sqrt_number.specs.Split.{lift};

use fmt_decode::norm::Norm;
use fmt_fields::layout::Format;
use word_bits::pow;

// A significand, and an exponent with a constant added, so that it is not negative and is halved as a whole number.
#[derive(Clone, Copy)]
pub struct Split {
    pub sig: u64,
    pub up: u32,
}

// The exponent with the constant.
fn lift_exponent(fmt: Format, n: Norm) -> u32
    requires { InRange (format_of fmt) n.exp }
    ensures { pos result ≡ n.exp +ℤ pos (lift (format_of fmt)) }
{
    (n.exp + (pow(fmt.expo) as i32 + fmt.frac as i32)) as u32
}

impl Split {
    ghost use Rattle.sqrt_table.specs.Table.{Serves};
    ghost use Rattle.sqrt_number.specs.Split.{word_of, Leads};

    // The parts of an unpacked number.
    pub fn of(fmt: Format, n: Norm) -> Split
        requires { InRange (format_of fmt) n.exp }
        ensures sig { result.sig ≡ n.sig }
        ensures up { pos result.up ≡ n.exp +ℤ pos (lift (format_of fmt)) }
    {
        Split {
            sig: n.sig,
            up: lift_exponent(fmt, n),
        }
    }

    // The radicand: the significand shifted left by as many pairs of bits as a word allows, and one bit further where the exponent is odd.
    pub fn word(self, frac: u32) -> u64
        requires { Leads frac self.sig }
        ensures { result ≡ word_of frac self.sig self.up }
    {
        self.sig << (62 - frac + self.up % 2)
    }

    // The step of the table for this radicand: the six bits after the leading one, and the half of the table by the exponent. The remainder tells the compiler
    // that the index is in range.
    pub fn step(self, frac: u32) -> u64
        requires { Leads frac self.sig × (6 ≤ frac) }
        ensures { Serves result (word_of frac self.sig self.up / 2 ^ 32) }
    {
        ((self.sig >> (frac - 6)) - 64 * (self.up % 2) as u64) % 128
    }
}
