// The operations of the list call, and their numbers.
ghost use Rattle.lists.specs.Operations.{Decodes};

use fmt_fields::refusal::Refusal;

// In the order of their numbers.
#[derive(Clone, Copy, Debug, PartialEq, Eq)]
pub enum Operation {
    Sqrt,
    Floor,
    Trunc,
}

impl TryFrom<u32> for Operation {
    type Error = Refusal;

    ghost try_from_gives = { Decodes };

    fn try_from(number: u32) -> Result<Operation, Refusal> {
        match number {
            1 => Ok(Operation::Sqrt),
            2 => Ok(Operation::Floor),
            3 => Ok(Operation::Trunc),
            _ => Err(Refusal::NoOperation),
        }
    }
}
