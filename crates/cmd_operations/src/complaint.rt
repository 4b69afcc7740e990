// What is wrong with a line.
use crate::table::{Kind, Names};
use std::error::Error;
use std::fmt;
use text_lines::Fault;

// Why a line is not a request. An operand goes by its number, from 1 on.
#[derive(Clone, Copy, Debug, PartialEq, Eq)]
pub enum Complaint {
    TooLong,
    CarriageReturn,
    BlankTooMany,
    NoAttribute,
    Unknown,
    Attribute(Fault),
    Missing {
        operand: usize,
        kind: Kind,
    },
    // After all `operands` of them there is one more.
    TooMany {
        operands: usize,
    },
    // A field of `size` characters.
    Operand {
        operand: usize,
        kind: Kind,
        fault: Fault,
        size: usize,
    },
}

impl fmt::Display for Complaint {
    fn fmt<W: fmt::Write>(&self, f: &mut fmt::Formatter<W>) -> fmt::Result {
        match *self {
            Complaint::TooLong => f.write_str(
                "the line is too long; expected a request of at most 124 characters",
            ),
            Complaint::CarriageReturn => f.write_str(
                "a carriage return stands in the request; expected a line feed alone",
            ),
            Complaint::BlankTooMany => {
                f.write_str("a blank too many; expected single blanks between fields")
            }
            Complaint::NoAttribute => {
                f.write_str("the operation takes no attribute; expected its name alone")
            }
            Complaint::Unknown => {
                write!(
                    f,
                    "unknown operation; expected one of{Names} (an attribute follows a dot)"
                )
            }
            Complaint::Attribute(fault) => write_attribute(f, fault),
            Complaint::Missing { operand, kind } => {
                write!(f, "operand {operand} is missing; expected {kind}")
            }
            Complaint::TooMany { operands } => write_too_many(f, operands),
            Complaint::Operand {
                operand,
                kind,
                fault,
                size,
            } => {
                write!(f, "operand {operand} ")?;
                write_fault(f, fault, size)?;
                write!(f, "; expected {kind}")
            }
        }
    }
}

impl Error for Complaint {}

// What has no digits, or other ones, was meant for a name.
fn write_attribute<W: fmt::Write>(f: &mut fmt::Formatter<W>, fault: Fault) -> fmt::Result {
    f.write_str("the attribute ")?;
    match fault {
        Fault::NoDigit => f.write_str("is empty")?,
        Fault::WrongDigit => f.write_str("is unknown")?,
        _ => write!(f, "{fault}")?,
    }
    f.write_str("; expected even, zero, down, up, away or a decimal number from 0 to 4294967295")
}

fn write_too_many<W: fmt::Write>(f: &mut fmt::Formatter<W>, operands: usize) -> fmt::Result {
    let number = operands.wrapping_add(1);
    write!(
        f,
        "operand {number} is one too many; expected {operands} operand"
    )?;
    f.write_str(if operands == 1 { "" } else { "s" })
}

// The fault of a field of `size` characters.
pub fn write_fault<W: fmt::Write>(
    f: &mut fmt::Formatter<W>,
    fault: Fault,
    size: usize,
) -> fmt::Result {
    match fault {
        Fault::WrongLength => write!(
            f,
            "has {size} character{}",
            if size == 1 { "" } else { "s" }
        ),
        _ => write!(f, "{fault}"),
    }
}
