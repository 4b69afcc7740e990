// The refusals of the list call, at every width.
ghost use Rattle.std.specs.Prelude.{◌≡◌, List, ℕ, length};
ghost use Rattle.ieee.specs.Lists.{list_refusals};
ghost use Rattle.ieee.specs.Refusal.{given, number_of};
ghost use Rattle.fmt_fields.specs.Refused.{answer_of};

use crate::operation::Operation;
use fmt_fields::refusal::Refusal;

// The limit of a list's places.
pub const LIMIT: usize = 8192;

// Whether a call is done. The refusals depend on the lengths of the lists alone.
pub fn list_refusal(limit: usize, op: u32, read: usize, written: usize) -> Result<(), Refusal>
    ensures { (xs ys : List ℕ) → length xs ≡ read → length ys ≡ written
        → number_of (answer_of (λ _. 0) result) ≡ given (list_refusals limit op xs ys) }
{
    Operation::try_from(op)?;
    if read > limit || written > limit {
        return Err(Refusal::TooManyPlaces);
    }
    if read != written {
        return Err(Refusal::UnlikeLengths);
    }
    Ok(())
}
