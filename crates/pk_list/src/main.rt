// Re-signs a list: reads one pattern a line, and writes one line for each, in order, by the list call.
// Then it writes the number of bad lines, as the verdict.
//
// The list call takes a piece at a time: the lines that one read completes, at most 8,192 of them. A line that is not a pattern keeps its place in
// the piece, with the mark of its flaw beside it. The operation's number is read from descriptor 5 once there is something to answer, and passed on
// unchecked: the list call judges it.
#![tactic(auto)]

ghost use Rattle.std.specs.Prelude.{◌≡◌};

mod pieces;
mod place;
mod places;

use cmd_streams::Streams;
use pieces::Piece;
use place::read_place;
use places::Places;
use std::rt::{Stderr, Stdin, Stdout};
use text_lines::Line;

// How many lines are answered between two progress lines.
const STRETCH: u64 = 10000000;

#[derive(Drop)]
struct Program {
    // The operation's number.
    op: u32,
    // The kept part of the current line, and how many bytes it has so far.
    line: Line,
    size: usize,
    // The current piece.
    places: Places,
    // The pieces and the lines answered, and how many of the lines were bad.
    pieces: u64,
    answered: u64,
    bad: u64,
    streams: Streams,
}

impl Program {
    // Before anything is read, and with no operation yet. Made with its buffers in place: one that is moved in stands twice on the stack.
    fn new(stdin: Stdin, stdout: Stdout, stderr: Stderr) -> Self {
        Program {
            op: 0,
            line: Line::new(),
            size: 0,
            places: Places::new(),
            pieces: 0,
            answered: 0,
            bad: 0,
            streams: Streams::new(stdin, stdout, stderr),
        }
    }

    // Passes the current piece to the list call, answers its lines, and reports progress at the end of a stretch.
    fn end_piece(&mut self)
        ensures { self.new.places.filled ≡ 0 }
    {
        if self.places.filled == 0 {
            return;
        }
        self.pieces = self.pieces.wrapping_add(1);
        let before = self.answered;
        let piece = Piece {
            number: self.pieces,
            before,
        };
        let bad = pieces::answer_piece(&mut self.streams, self.op, piece, &self.places);
        self.answered = before.wrapping_add(self.places.filled as u64);
        self.bad = self.bad.wrapping_add(bad);
        self.places.clear();
        if self.answered / STRETCH > before / STRETCH {
            pieces::tell_progress(&self.streams, self.answered, self.bad);
        }
    }

    // Keeps a part of the current line.
    fn keep(&mut self, bytes: &[u8]) {
        self.line.keep(bytes);
        self.size = self.size.wrapping_add(bytes.len());
    }

    // Ends the current line, which fills the next place: the first one of a piece where the last piece is full.
    fn end_line(&mut self) {
        if self.places.is_full() {
            self.end_piece();
        }
        let place = read_place(self.line.kept(), self.size);
        self.places.push(place);
        self.line.clear();
        self.size = 0;
    }

    fn take_lines(&mut self, bytes: &[u8]) {
        for part in bytes.split_inclusive(|b| *b == b'\n') {
            match part {
                [line @ .., b'\n'] => {
                    self.keep(line);
                    self.end_line();
                }
                _ => self.keep(part),
            }
        }
    }

    // Answers the lines that each read completes, until the input ends. `first` is the number of bytes that were read already. A loop
    // with no end would need `Wait`, which no handle of this repository has, so this one counts its turns, up to a number that no run reaches.
    fn run(&mut self, input: &mut [u8; 65536], first: usize) {
        let mut count = first;
        for _ in 0..u64::MAX {
            if count == 0 {
                return;
            }
            self.take_lines(text_lines::part(input, 0, count));
            self.end_piece();
            self.streams.flush();
            count = self.streams.read(input);
        }
        self.streams.fail();
    }

    // Ends a last line that has no line feed.
    fn finish(&mut self) {
        if self.size > 0 {
            self.end_line();
            self.end_piece();
        }
    }
}

fn main(rt: HostRuntime) {
    let mut input = [0u8; 65536];
    let mut program = Program::new(rt.stdin(), rt.stdout(), rt.stderr());
    let first = program.streams.read(&mut input);
    if first == 0 {
        program.streams.close(&rt, 0);
        return;
    }
    let Some(op) = program.streams.read_number(&rt) else {
        return;
    };
    program.op = op;
    program.run(&mut input, first);
    program.finish();
    program.streams.close(&rt, program.bad);
}
