// The reduction on words of 64 bits, by a function that is passed.
ghost use Rattle.std.specs.Prelude.{◌≡◌, ℕ, ◌*◌, ◌%◌, ◌<◌, ◌≤◌, ◌^◌, IfOk};
ghost use Rattle.ieee.specs.Reduction.{reduce_of};
ghost use Rattle.fmt_fields.specs.Layout.{format_of};
ghost use Rattle.fmt_fields.specs.Refused.{answer_of};
ghost use Rattle.reduce.specs.Bits.{bits_of};

use crate::refusal::refusal_of;
use fmt_fields::layout::Format;
use fmt_fields::refusal::Refusal;

// How many bits the words have that hold a format's patterns.
pub fn bits_of(fmt: Format) -> u32
    ensures { result ≡ bits_of (format_of fmt) }
{
    fmt.frac + fmt.expo + 1
}

// On words of so many bits: within the limits, what `by` gives of x, e and y.
#[inline(always)]
pub fn reduce_by<F: FnOnce(u64, u32, u64) -> u64>(
    bits: u32,
    x: u64,
    e: u32,
    y: u64,
    by: F,
) -> Result<u64, Refusal>
    requires least { 2 ≤ bits }
    requires most { bits ≤ 64 }
    requires may { x < 2 * y → y < 2 ^ 62 → e < 2 ^ 31 → F.pre by x e y }
    requires gives { (r : ℕ) → F.post by x e y r → r ≡ x * 2 ^ e % y }
    ensures answer { answer_of (λ v. v) result ≡ reduce_of bits x e y }
    ensures below { IfOk result (λ v. v < 2 ^ bits) }
{
    refusal_of(bits, x, e, y)?;
    Ok(by(x, e, y))
}
