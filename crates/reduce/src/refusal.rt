// The refusals of the reduction.
ghost use Rattle.std.specs.Prelude.{◌≡◌, ◌≤◌};
ghost use Rattle.ieee.specs.Reduction.{reduce_of};
ghost use Rattle.ieee.specs.Refusal.{number_of};
ghost use Rattle.fmt_fields.specs.Refused.{answer_of};
ghost use Rattle.reduce.specs.Bits.{bits_of};

use crate::words::bits_of;
use fmt_fields::refusal::Refusal;
use fmt_fields::width::Width;
use word_bits::pow;

// On words of so many bits. The divisor is tested first, so that twice y cannot wrap. The second test refuses a divisor of 0, since no x is below 0.
pub fn refusal_of(bits: u32, x: u64, e: u32, y: u64) -> Result<(), Refusal>
    requires least { 2 ≤ bits }
    requires most { bits ≤ 64 }
    ensures { number_of (answer_of (λ _. 0) result) ≡ number_of (reduce_of bits x e y) }
{
    if y >= pow(bits - 2) {
        return Err(Refusal::BeyondDivisor);
    }
    if x >= 2 * y {
        return Err(Refusal::BeyondDivisor);
    }
    if e > 4096 {
        return Err(Refusal::ShiftTooLong);
    }
    Ok(())
}

pub fn refusal<W: Width>(x: W, e: u32, y: W) -> Result<(), Refusal>
    ensures { number_of (answer_of (λ _. 0) result) ≡ number_of (reduce_of (bits_of W.layout) (W.pattern x) e (W.pattern y)) }
{
    refusal_of(bits_of(W::format()), x.widen(), e, y.widen())
}
