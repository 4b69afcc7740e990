// Reads a request: an operation's name, then its operands.
ghost use Rattle.std.specs.Prelude.{◌≡◌, ◌+◌, min};
ghost use Rattle.cmd_operations.specs.Request.{name_of};
ghost use Rattle.cmd_operations.specs.Table.{row_of};

use crate::complaint::Complaint;
use crate::table::{Kind, Row, attribute_of, row_of};
use text_lines::{Fault, find, has_blank_too_many, part, read_signed, read_unsigned, read_word};

// The operands of a request: words, numbers and the length of a text by their index; the signed number and the attribute, if any.
#[derive(Clone, Copy, Debug, Default, PartialEq, Eq)]
pub struct Operands {
    pub x: u64,
    pub y: u64,
    pub z: u64,
    pub n: i32,
    pub attribute: u64,
}

// The row of the operation that a line names, and its operands, or why the line is not a request. The row stands beside the two: `read_request` settles it where
// there is a complaint too.
#[derive(Clone, Copy)]
pub struct Request {
    pub row: Option<Row>,
    pub operands: Result<Operands, Complaint>,
}

// The value of a field.
#[derive(Clone, Copy)]
enum Value {
    Number(u64),
    Signed(i32),
}

impl Operands {
    // Takes the value of the operand at an index, from 0 on.
    fn set(&mut self, index: usize, value: Value) {
        match value {
            Value::Signed(n) => self.n = n,
            Value::Number(number) => match index {
                0 => self.x = number,
                1 => self.y = number,
                _ => self.z = number,
            },
        }
    }
}

// A name or a number.
fn read_attribute(f: &[u8]) -> Result<u64, Fault> {
    match attribute_of(f) {
        Some(number) => Ok(number as u64),
        None => read_unsigned(f),
    }
}

// A text may be anything; its length is its value.
fn read_field(f: &[u8], kind: Kind) -> Result<Value, Fault> {
    match kind {
        Kind::Word64 => read_word(f, 16).map(Value::Number),
        Kind::Word32 => read_word(f, 8).map(Value::Number),
        Kind::Signed => read_signed(f).map(Value::Signed),
        Kind::Unsigned => read_unsigned(f).map(Value::Number),
        Kind::Flags | Kind::Text => Ok(Value::Number(f.len() as u64)),
    }
}

// The end of the operand that begins at the offset `begin`.
fn end_of(s: &[u8], begin: usize, kind: Kind) -> usize {
    match kind {
        Kind::Text => s.len(),
        _ => find(s, begin, b' '),
    }
}

// Reads the operands, each after a blank, from the end of the name.
fn read_operands(s: &[u8], row: Row, from: usize) -> Result<Operands, Complaint> {
    let mut operands = Operands::default();
    let mut at = from;
    for (index, kind) in row.operands.iter().flatten().enumerate() {
        let operand = index.wrapping_add(1);
        if at >= s.len() {
            return Err(Complaint::Missing {
                operand,
                kind: *kind,
            });
        }
        let begin = at + 1;
        at = end_of(s, begin, *kind);
        let field = part(s, begin, at);
        let size = field.len();
        let value = read_field(field, *kind).map_err(|fault| Complaint::Operand {
            operand,
            kind: *kind,
            fault,
            size,
        })?;
        operands.set(index, value);
    }
    if at < s.len() {
        let operands = row.operands.iter().flatten().count();
        return Err(Complaint::TooMany { operands });
    }
    Ok(operands)
}

// The end of the name: after the first dot, if there is one before `end`.
fn name_end(dot: usize, end: usize) -> usize
    ensures { result ≡ min (dot + 1) end }
{
    if dot < end { dot + 1 } else { end }
}

// The row, unless the fields in s have a fault that shows before their values are read. s ends before a text.
fn check_fields(s: &[u8], row: Option<Row>) -> Result<Row, Complaint> {
    if s.contains(&b'\r') {
        return Err(Complaint::CarriageReturn);
    }
    if has_blank_too_many(s) {
        return Err(Complaint::BlankTooMany);
    }
    match row {
        Some(row) => Ok(row),
        // Without the dot it may be a name.
        None if row_of(part(s, 0, find(s, 0, b'.'))).is_some() => Err(Complaint::NoAttribute),
        None => Err(Complaint::Unknown),
    }
}

// The end of the fields: a text is not a field, and runs to the end.
fn fields_end(s: &[u8], row: Option<Row>, end: usize) -> usize {
    match row.and_then(|row| row.operands[0]) {
        Some(Kind::Text) => end,
        _ => s.len(),
    }
}

// Reads the fields after the name, which ends at `from`: the attribute, from there up to `end`, and the operands.
fn read_fields(s: &[u8], row: Option<Row>, dot: usize, end: usize) -> Result<Operands, Complaint> {
    let row = check_fields(part(s, 0, fields_end(s, row, end)), row)?;
    let attribute = if dot < end {
        read_attribute(part(s, dot + 1, end)).map_err(Complaint::Attribute)?
    } else {
        0
    };
    let operands = read_operands(s, row, end)?;
    Ok(Operands {
        attribute,
        ..operands
    })
}

// Reads the request in s.
#[tactic(auto, unfolding(crate::specs::Request::name_of))]
pub fn read_request(s: &[u8]) -> Request
    ensures { result.row ≡ row_of (name_of s.now) }
{
    let end = find(s, 0, b' ');
    let dot = find(s, 0, b'.');
    let row = row_of(part(s, 0, name_end(dot, end)));
    Request {
        row,
        operands: read_fields(s, row, dot, end),
    }
}
