// The attributes of rounding, and their numbers.
ghost use Rattle.std.specs.Prelude.{◌<◌};
ghost use Rattle.fmt_fields.specs.Raised.{attribute_of};
ghost use Rattle.fmt_fields.specs.Numbered.{Names, Decodes};

use crate::refusal::Refusal;

// The attributes of IEEE 754, clause 4.3, in the order of their numbers.
#[derive(Clone, Copy, Debug, PartialEq, Eq)]
pub enum Attribute {
    Even,
    Zero,
    Down,
    Up,
    Away,
}

impl TryFrom<u32> for Attribute {
    type Error = Refusal;

    ghost try_from_gives = { Decodes };

    fn try_from(number: u32) -> Result<Attribute, Refusal> {
        match number {
            0 => Ok(Attribute::Even),
            1 => Ok(Attribute::Zero),
            2 => Ok(Attribute::Down),
            3 => Ok(Attribute::Up),
            4 => Ok(Attribute::Away),
            _ => Err(Refusal::NoAttribute),
        }
    }
}

// The attribute of a number that is known to be one's. No method, so that the face, which has the type, has no function that asks something.
pub fn attribute_of(number: u32) -> Attribute
    requires { number < 5 }
    ensures { Names number (attribute_of result) }
{
    match number {
        0 => Attribute::Even,
        1 => Attribute::Zero,
        2 => Attribute::Down,
        3 => Attribute::Up,
        _ => Attribute::Away,
    }
}
