// Why a call is refused, and the number of each refusal.
use std::error::Error;
use std::fmt;

// In the order of their numbers.
#[derive(Clone, Copy, Debug, PartialEq, Eq)]
pub enum Refusal {
    NoOperation,
    TooManyPlaces,
    UnlikeLengths,
    BeyondDivisor,
    ShiftTooLong,
    TextTooLong,
    NoNumeral,
    NoRoom,
    NoAttribute,
}

impl Refusal {
    ghost use Rattle.std.specs.Prelude.{◌≡◌};
    ghost use Rattle.fmt_fields.specs.Refused.{refusal_number};

    // The number that C has. 0 is no refusal, and 9 is free.
    pub fn number(self) -> u32
        ensures { result ≡ refusal_number self }
    {
        match self {
            Refusal::NoOperation => 1,
            Refusal::TooManyPlaces => 2,
            Refusal::UnlikeLengths => 3,
            Refusal::BeyondDivisor => 4,
            Refusal::ShiftTooLong => 5,
            Refusal::TextTooLong => 6,
            Refusal::NoNumeral => 7,
            Refusal::NoRoom => 8,
            Refusal::NoAttribute => 10,
        }
    }
}

impl fmt::Display for Refusal {
    ghost use Rattle.std.specs.Prelude.{Some};
    ghost use Rattle.fmt_fields.specs.Refused.{words_of};

    ghost output = { λ r. Some (words_of r) };

    fn fmt<W: fmt::Write>(&self, f: &mut fmt::Formatter<W>) -> fmt::Result {
        f.write_str(match self {
            Refusal::NoOperation => "no such operation",
            Refusal::TooManyPlaces => "a list is too long",
            Refusal::UnlikeLengths => "the lists differ in length",
            Refusal::BeyondDivisor => "an operand is outside the limits of the divisor",
            Refusal::ShiftTooLong => "the shift is too long",
            Refusal::TextTooLong => "the text is too long",
            Refusal::NoNumeral => "the text is no numeral",
            Refusal::NoRoom => "the output has too few bytes",
            Refusal::NoAttribute => "no such attribute of rounding",
        })
    }
}

impl Error for Refusal {}
