// One place of a list file: a line read as a pattern, and the line written for it.
ghost use Rattle.std.specs.Prelude.{◌≡◌, None};
ghost use Rattle.text_numbers.specs.Digits.{digits_of};
ghost use Rattle.text_numbers.specs.Placed.{Placed};
ghost use Rattle.pk_list.specs.Placing.{ReadAs, mark_of};

use cmd_operations::complaint::write_fault;
use cmd_operations::table::Kind;
use cmd_streams::output::Output;
use paskerotim::Refusal;
use std::error::Error;
use std::fmt;
use std::fmt::Write;
use text_lines::{Fault, read_word};

// Why a line is not a pattern: of its faults, the one that helps most to correct it.
#[derive(Clone, Copy, Debug, PartialEq, Eq)]
pub enum Flaw {
    Empty,
    Comment,
    CarriageReturn,
    Blank,
    WrongDigit,
    // The number of its characters.
    WrongLength(usize),
}

impl fmt::Display for Flaw {
    fn fmt<W: fmt::Write>(&self, f: &mut fmt::Formatter<W>) -> fmt::Result {
        match *self {
            Flaw::Empty => f.write_str("the line is empty")?,
            Flaw::Comment => f.write_str("the line is a comment")?,
            Flaw::CarriageReturn => f.write_str("a carriage return stands in the line")?,
            Flaw::Blank => f.write_str("a blank stands in the line")?,
            Flaw::WrongDigit => f.write_str("the line has a wrong digit")?,
            Flaw::WrongLength(size) => {
                f.write_str("the line ")?;
                write_fault(f, Fault::WrongLength, size)?;
            }
        }
        let pattern = Kind::Word64;
        write!(f, "; expected {pattern}")
    }
}

impl Error for Flaw {}

// The mark of a wrong length of no characters.
const LENGTH: u64 = 6;

// The mark of a flaw, one word in the place of an Option's three: the marks of a piece lie on the stack, as the programs have no heap.
pub fn mark(flaw: Option<Flaw>) -> u64
    ensures { result ≡ mark_of flaw }
{
    match flaw {
        None => 0,
        Some(Flaw::Empty) => 1,
        Some(Flaw::Comment) => 2,
        Some(Flaw::CarriageReturn) => 3,
        Some(Flaw::Blank) => 4,
        Some(Flaw::WrongDigit) => 5,
        Some(Flaw::WrongLength(size)) => (size as u64).saturating_add(LENGTH),
    }
}

// The flaw of a mark.
pub fn marked(mark: u64) -> Option<Flaw>
    ensures { mark_of result ≡ mark }
{
    match mark {
        0 => None,
        1 => Some(Flaw::Empty),
        2 => Some(Flaw::Comment),
        3 => Some(Flaw::CarriageReturn),
        4 => Some(Flaw::Blank),
        5 => Some(Flaw::WrongDigit),
        _ => Some(Flaw::WrongLength((mark - LENGTH) as usize)),
    }
}

// The flaw of a line that is not a pattern.
fn flaw_of(s: &[u8], size: usize) -> Flaw {
    match s.first() {
        None => Flaw::Empty,
        Some(b'#') => Flaw::Comment,
        _ if s.contains(&b'\r') => Flaw::CarriageReturn,
        _ if s.contains(&b' ') => Flaw::Blank,
        _ if size == 16 => Flaw::WrongDigit,
        _ => Flaw::WrongLength(size),
    }
}

// Reads a line of `size` characters, given whole or by a first part longer than any pattern.
pub fn read_place(s: &[u8], size: usize) -> Result<u64, Flaw>
    ensures { ReadAs s.now result }
{
    read_word(s, 16).map_err(|_| flaw_of(s, size))
}

// That a piece was refused, and why.
#[derive(Clone, Copy, Debug)]
pub struct Refused(pub Refusal);

impl fmt::Display for Refused {
    fn fmt<W: fmt::Write>(&self, f: &mut fmt::Formatter<W>) -> fmt::Result {
        let refusal = self.0;
        let number = refusal.number();
        write!(f, "was refused with {number}")?;
        let expected = match refusal {
            Refusal::NoOperation => "1 (sqrt), 2 (floor) or 3 (trunc)",
            Refusal::TooManyPlaces => "at most 8192 places",
            Refusal::UnlikeLengths => "one length for both",
            // The list call has no other.
            _ => return Ok(()),
        };
        write!(f, ": {refusal}; expected {expected}")
    }
}

// The line written for the line `number`: the result y, or why there is none. The line's own flaw comes before a refusal of its piece.
pub fn write_place<const N: usize>(
    out: &mut Output<N>,
    number: u64,
    y: u64,
    flaw: Option<Flaw>,
    refusal: Option<Refusal>,
)
    ensures { flaw ≡ None → refusal ≡ None → Placed out.old.bytes out.old.end (digits_of 16 16 y) out.new.bytes out.new.end }
{
    if let Some(flaw) = flaw {
        let _ = write!(out, "error: line {number}: {flaw}");
    } else if let Some(refusal) = refusal {
        let refused = Refused(refusal);
        let _ = write!(out, "error: line {number}: its piece {refused}");
    } else {
        out.write_word(y, 16);
    }
}
