// A piece of a list file: passed to the list call, with one line written for each of its places.
ghost use Rattle.std.specs.Prelude.{◌≡◌, ◌≤◌, ◌++◌, length, take, drop};
ghost use Rattle.ieee.specs.Format.{b64};
ghost use Rattle.ieee.specs.Lists.{list_of};
ghost use Rattle.fmt_fields.specs.Refused.{answer_of};

use crate::place::{Refused, marked, write_place};
use crate::places::Places;
use cmd_streams::Streams;
use cmd_streams::output::Output;
use paskerotim::{Refusal, list64};
use std::fmt::Write;

// The most that one line can add to the output.
const ROOM: usize = 256;

// The number of a piece, and the lines before it.
#[derive(Clone, Copy)]
pub struct Piece {
    pub number: u64,
    pub before: u64,
}

// Reports that a piece of so many lines was refused.
fn tell_refused(streams: &Streams, piece: Piece, lines: u64, refusal: Refusal) {
    let mut text = Output::<256>::new();
    let number = piece.number;
    let first = piece.before.wrapping_add(1);
    let last = piece.before.wrapping_add(lines);
    let refused = Refused(refusal);
    // It has room.
    let _ = write!(
        text,
        "pk: piece {number}, lines {first} to {last}, {refused}\n"
    );
    streams.tell(text.filled());
}

// The list call on the first n places: the output keeps the others.
fn list_first(op: u32, xs: &[u64], ys: &mut [u64], n: usize) -> Result<(), Refusal>
    requires { (n ≤ length xs.now) × (n ≤ length ys.old) }
    ensures answer { answer_of (λ _. 0) result ≡ (list_of b64 op (take n xs.now) (take n ys.old)).answer }
    ensures output { ys.new ≡ (list_of b64 op (take n xs.now) (take n ys.old)).output ++ drop n ys.old }
{
    list64(op, &xs[..n], &mut ys[..n])
}

// Answers the lines of a piece, and gives how many were bad. Where the list call refuses the piece, no line has a result.
pub fn answer_piece(streams: &mut Streams, op: u32, piece: Piece, places: &Places) -> u64 {
    let n = places.filled;
    let mut ys = [0u64; 8192];
    let refusal = list_first(op, &places.patterns, &mut ys, n).err();
    let marks = &places.marks[..n];
    let mut number = piece.before;
    for (y, mark) in ys.iter().zip(marks) {
        number = number.wrapping_add(1);
        streams.reserve(ROOM);
        write_place(&mut streams.output, number, *y, marked(*mark), refusal);
        streams.output.write_bytes(b"\n");
    }
    match refusal {
        Some(refusal) => {
            tell_refused(streams, piece, n as u64, refusal);
            n as u64
        }
        None => marks.iter().filter(|mark| **mark > 0).count() as u64,
    }
}

// Reports progress.
pub fn tell_progress(streams: &Streams, answered: u64, bad: u64) {
    let mut text = Output::<256>::new();
    // It has room.
    let _ = write!(text, "pk: {answered} lines answered, {bad} of them bad\n");
    streams.tell(text.filled());
}
