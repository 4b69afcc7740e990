// The table of the operations: their names, and the kinds of their operands and answers.
ghost use Rattle.std.specs.Prelude.{◌≡◌, map};
ghost use Rattle.cmd_operations.specs.Naming.{as_named, row_in};
ghost use Rattle.cmd_operations.specs.Table.{row_of, attribute_of};

use std::fmt;

// The kinds of operands and answers.
#[derive(Clone, Copy, Debug, PartialEq, Eq)]
pub enum Kind {
    Word64,
    Word32,
    Signed,
    Unsigned,
    Flags,
    // Anything up to the end of the line, as the only operand.
    Text,
}

// How a field of that kind is to be written.
impl fmt::Display for Kind {
    fn fmt<W: fmt::Write>(&self, f: &mut fmt::Formatter<W>) -> fmt::Result {
        f.write_str(match self {
            Kind::Word64 => "16 lower-case hex digits",
            Kind::Word32 => "8 lower-case hex digits",
            Kind::Signed => "a decimal number from -2147483648 to 2147483647",
            Kind::Unsigned => "a decimal number from 0 to 4294967295",
            Kind::Flags | Kind::Text => "a text",
        })
    }
}

// An operation: its name, and the kinds of up to three operands and of up to three answers, of which `row_at` (specs/Table.antt) has three. A name that ends in a dot
// is followed by an attribute.
#[derive(Clone, Copy)]
pub struct Operation {
    pub name: &'static str,
    pub operands: [Option<Kind>; 3],
    pub answers: [Option<Kind>; 3],
}

// A kind by the letter that it has in the table.
macro_rules! kind {
    (W) => {
        Some(Kind::Word64)
    };
    (w) => {
        Some(Kind::Word32)
    };
    (N) => {
        Some(Kind::Signed)
    };
    (U) => {
        Some(Kind::Unsigned)
    };
    (F) => {
        Some(Kind::Flags)
    };
    (T) => {
        Some(Kind::Text)
    };
    (-) => {
        None
    };
}

// The rows of a table: the name, the kinds of the operands, and those of the answers.
macro_rules! operations {
    ($($name:literal ($($operand:tt)*) ($($answer:tt)*);)*) => {
        [$(Operation {
            name: $name,
            operands: [$(kind!($operand)),*],
            answers: [$(kind!($answer)),*],
        }),*]
    };
}

// An operation's number is that of its row, from 0 on.
const OPERATIONS: [Operation; 31] = operations! {
    "floor64" (W - -) (W F -);
    "floor32" (w - -) (w F -);
    "trunc64" (W - -) (W F -);
    "trunc32" (w - -) (w F -);
    "scalbn64" (W N -) (W F -);
    "scalbn32" (w N -) (w F -);
    "fmod64" (W W -) (W - -);
    "fmod32" (w w -) (w - -);
    "remquo64" (W W -) (W N -);
    "reduce64" (W U W) (U W -);
    "reduce32" (w U w) (U w -);
    "sqrt64" (W - -) (W F -);
    "sqrt32" (w - -) (w F -);
    "fma64" (W W W) (W F -);
    "fma32" (w w w) (w F -);
    "ceil64" (W - -) (W F -);
    "ceil32" (w - -) (w F -);
    "modf64" (W - -) (W W -);
    "modf32" (w - -) (w w -);
    "frexp64" (W - -) (W N -);
    "frexp32" (w - -) (w N -);
    "ilogb64" (W - -) (N - -);
    "ilogb32" (w - -) (N - -);
    "nextafter64" (W W -) (W - -);
    "nextafter32" (w w -) (w - -);
    "sqrt64." (W - -) (U W F);
    "sqrt32." (w - -) (U w F);
    "fma64." (W W W) (U W F);
    "fma32." (w w w) (U w F);
    "scalbn64." (W N -) (U W F);
    "scalbn32." (w N -) (U w F);
};

// The attributes of rounding, in the order of their numbers.
const ATTRIBUTES: [&str; 5] = ["even", "zero", "down", "up", "away"];

// The number of an operation, and the kinds of its operands and answers.
#[derive(Clone, Copy)]
pub struct Row {
    pub number: usize,
    pub operands: [Option<Kind>; 3],
    pub answers: [Option<Kind>; 3],
}

// The row of the name s among the operations.
fn find_row(operations: &[Operation], s: &[u8]) -> Option<Row>
    ensures { result ≡ row_in s.now (map as_named operations.now) 0 }
{
    let (number, operation) = operations
        .iter()
        .enumerate()
        .find(|(_, operation)| s == operation.name.as_bytes())?;
    Some(Row {
        number,
        operands: operation.operands,
        answers: operation.answers,
    })
}

// The row of the operation that s names.
pub fn row_of(s: &[u8]) -> Option<Row>
    ensures { result ≡ row_of s.now }
{
    find_row(&OPERATIONS, s)
}

// The number of the attribute that s names.
pub fn attribute_of(s: &[u8]) -> Option<usize>
    ensures { result ≡ attribute_of s.now }
{
    ATTRIBUTES.iter().position(|name| s == name.as_bytes())
}

// All operations, in the order of their numbers.
pub struct Names;

// The names, each after a blank.
impl fmt::Display for Names {
    fn fmt<W: fmt::Write>(&self, f: &mut fmt::Formatter<W>) -> fmt::Result {
        for operation in &OPERATIONS {
            f.write_str(" ")?;
            f.write_str(operation.name)?;
        }
        Ok(())
    }
}
