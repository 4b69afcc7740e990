// The list call: refused, with the output unchanged, or done at every place.
ghost use Rattle.std.specs.Prelude.{◌≡◌};
ghost use Rattle.ieee.specs.Format.{b64};
ghost use Rattle.ieee.specs.Lists.{list_of};
ghost use Rattle.fmt_fields.specs.Refused.{answer_of};

use crate::fill::fill64;
use crate::refusal::{LIMIT, list_refusal};
use fmt_fields::refusal::Refusal;

// The operation is a number, as `list_of` has it, and C.
pub fn list64(op: u32, xs: &[u64], ys: &mut [u64]) -> Result<(), Refusal>
    ensures answer { answer_of (λ _. 0) result ≡ (list_of b64 op xs.now ys.old).answer }
    ensures output { ys.new ≡ (list_of b64 op xs.now ys.old).output }
{
    list_refusal(LIMIT, op, xs.len(), ys.len())?;
    fill64(op, xs, ys);
    Ok(())
}
