// The answers of an operation, and how they are written.
use crate::table::{Kind, Row};
use cmd_streams::output::Output;

// Words and numbers by their index, and the signed number if there is one.
#[derive(Clone, Copy, Debug, PartialEq, Eq)]
pub struct Answers {
    pub x: u64,
    pub y: u64,
    pub z: u64,
    pub n: i32,
}

// The flags by libm's bits.
const FLAGS: [(u64, &[u8]); 5] = [
    (1, b"INVALID"),
    (4, b"DIVBYZERO"),
    (8, b"OVERFLOW"),
    (16, b"UNDERFLOW"),
    (32, b"INEXACT"),
];

// The names of the raised flags, with a plus between them.
fn write_flags<const N: usize>(out: &mut Output<N>, word: u64) {
    let mut is_first = true;
    for (bit, name) in &FLAGS {
        if word & *bit != 0 {
            if !is_first {
                out.write_bytes(b"+");
            }
            out.write_bytes(name);
            is_first = false;
        }
    }
    if is_first {
        out.write_bytes(b"OK");
    }
}

fn write_answer<const N: usize>(out: &mut Output<N>, kind: Kind, value: u64, n: i32) {
    out.write_bytes(b" ");
    match kind {
        Kind::Word64 => out.write_word(value, 16),
        Kind::Word32 => out.write_word(value, 8),
        Kind::Unsigned => out.write_unsigned(value),
        Kind::Signed => out.write_signed(n),
        Kind::Flags => write_flags(out, value),
        Kind::Text => {}
    }
}

// The answers of an operation, in the kinds of its row.
pub fn write_answers<const N: usize>(out: &mut Output<N>, row: Row, answers: Answers) {
    out.write_bytes(b" ->");
    let values = [answers.x, answers.y, answers.z];
    for (kind, value) in row.answers.iter().zip(&values) {
        if let Some(kind) = kind {
            write_answer(out, *kind, *value, answers.n);
        }
    }
}
