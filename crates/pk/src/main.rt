// Answers the requests on standard input, one line for each, and then writes the number of bad lines.
#![tactic(auto)]

mod call;
mod reply;

use cmd_streams::{State, Streams};
use std::fmt::Write;
use text_lines::Line;

// The most that one line can add to the output.
const ROOM: usize = 1024;

#[derive(Drop)]
struct Program {
    // The kept part of the current line.
    line: Line,
    // Whether it is a comment, which is copied.
    is_comment: bool,
    // The lines that have ended, and how many of them were bad.
    ended: u64,
    bad: u64,
    streams: Streams,
}

impl Program {
    fn new(streams: Streams) -> Self {
        Program {
            line: Line::new(),
            is_comment: false,
            ended: 0,
            bad: 0,
            streams,
        }
    }

    fn pass_on(&mut self, bytes: &[u8]) {
        self.streams.reserve(bytes.len());
        self.streams.output.write_bytes(bytes);
    }

    // Answers the current line, unless it is empty or a comment, and ends it.
    fn end_line(&mut self) {
        self.streams.reserve(ROOM);
        self.ended = self.ended.wrapping_add(1);
        if !self.line.is_empty() {
            self.reply();
        }
        self.streams.output.write_bytes(b"\n");
        self.line.clear();
        self.is_comment = false;
    }

    // Answers the current line.
    fn reply(&mut self) {
        let out = &mut self.streams.output;
        if let Err(complaint) = reply::write_reply(out, self.line.kept(), self.line.is_long) {
            let number = self.ended;
            // It has room, and a writer into a buffer has no other fault.
            let _ = write!(out, "error: line {number}: {complaint}");
            self.bad = self.bad.wrapping_add(1);
        }
    }

    // Takes a part of the current line.
    fn take_part(&mut self, bytes: &[u8]) {
        if self.line.is_empty() && bytes.first() == Some(&b'#') {
            self.is_comment = true;
        }
        if self.is_comment {
            self.pass_on(bytes);
        } else {
            self.line.keep(bytes);
        }
    }

    fn take_lines(&mut self, bytes: &[u8]) {
        for piece in bytes.split_inclusive(|b| *b == b'\n') {
            match piece {
                [line @ .., b'\n'] => {
                    self.take_part(line);
                    self.end_line();
                }
                _ => self.take_part(piece),
            }
        }
    }

    // Reads and answers, until the input ends, which it need not. A loop with no end would need `Wait`, which no handle of this repository has, so this one counts its
    // turns, up to a number that no run reaches.
    fn run(&mut self, input: &mut [u8; 65536]) {
        for _ in 0..u64::MAX {
            if self.streams.state != State::Open {
                return;
            }
            let count = self.streams.read(input);
            self.take_lines(text_lines::part(input, 0, count));
            self.streams.flush();
        }
        self.streams.fail();
    }

    // Ends a last line that has no line feed.
    fn finish(&mut self) {
        if self.is_comment || !self.line.is_empty() {
            self.end_line();
        }
    }
}

fn main(rt: HostRuntime) {
    let mut input = [0u8; 65536];
    let mut program = Program::new(Streams::new(rt.stdin(), rt.stdout(), rt.stderr()));
    program.run(&mut input);
    program.finish();
    program.streams.close(&rt, program.bad);
}
