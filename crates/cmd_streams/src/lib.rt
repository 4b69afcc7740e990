// Standard input and output of the programs, messages where they fail, and the verdict at the end.
#![tactic(auto)]

ghost use Rattle.std.specs.Prelude.{◌≡◌, ◌+◌, ◌≤◌};

pub mod output;

use output::Output;
use std::fs::OpenOptions;
use std::io::{Read, Write};
use std::rt::{Files, Stderr, Stdin, Stdout};
use std::{fs, io};

// The descriptor that the operation's number is read from. It is opened by its name, and where it is closed there is no file of that name.
const ORDER: &str = "/dev/fd/5";

// The descriptor that the number of bad lines is written to. Without that number the run did not finish.
const VERDICT: &str = "/dev/fd/3";

#[derive(Clone, Copy, Debug, PartialEq, Eq)]
pub enum State {
    // There is more to read.
    Open,
    // The input ended.
    Ended,
    // Reading or writing failed.
    Broken,
}

#[derive(Clone, Copy)]
pub struct Streams {
    stdin: Stdin,
    stdout: Stdout,
    stderr: Stderr,
    // The output that is not yet written.
    pub output: Output<65536>,
    pub state: State,
}

impl Streams {
    pub fn new(stdin: Stdin, stdout: Stdout, stderr: Stderr) -> Self
        ensures open { result.state ≡ State.Open }
        ensures empty { result.output.end ≡ 0 }
    {
        Streams {
            stdin,
            stdout,
            stderr,
            output: Output::new(),
            state: State::Open,
        }
    }

    pub fn fail(&mut self)
        ensures { self.new ≡ record self.old { state = State.Broken } }
    {
        self.state = State::Broken;
    }

    // Writes a message to standard error. One that cannot be written is lost: there is nowhere to say so.
    pub fn tell(&self, message: &[u8]) {
        let mut stderr = self.stderr;
        let _ = stderr.write_all(message);
    }

    // Writes out the pending output.
    pub fn flush(&mut self)
        ensures empty { self.new.output.end ≡ 0 }
        ensures bytes { self.new.output.bytes ≡ self.old.output.bytes }
    {
        let mut stdout = self.stdout;
        let is_lost = self.state != State::Broken
            && stdout.write_all(self.output.filled()).is_err();
        self.output.clear();
        if is_lost {
            self.tell(b"pk: cannot write standard output\n");
            self.fail();
        }
    }

    // Makes room for `more` bytes of output.
    pub fn reserve(&mut self, more: usize)
        ensures room { more ≤ 65536 → self.new.output.end + more ≤ 65536 }
        ensures bytes { self.new.output.bytes ≡ self.old.output.bytes }
    {
        if !self.output.has_room(more) {
            self.flush();
        }
    }

    // Reads once, unless the input has ended or anything failed. The number of bytes: 0 where the input ended, as std's `read` has it, or could not be read; `state`
    // tells which.
    pub fn read(&mut self, input: &mut [u8; 65536]) -> usize
        ensures { self.new.output ≡ self.old.output }
    {
        if self.state != State::Open {
            return 0;
        }
        let mut stdin = self.stdin;
        match stdin.read(input) {
            Ok(0) => {
                self.state = State::Ended;
                0
            }
            Ok(count) => count,
            Err(_) => {
                self.tell(b"pk: cannot read standard input\n");
                self.fail();
                0
            }
        }
    }

    // Writes out the rest, and then, unless anything failed, the number of bad lines.
    pub fn close(&mut self, rt: &impl Files, bad: u64)
        ensures { self.new.output.bytes ≡ self.old.output.bytes }
    {
        self.flush();
        if self.state != State::Broken {
            // Who waits for the number sees that it did not come.
            let _ = write_verdict(rt, bad);
        }
    }

    // Reads the operation's number.
    pub fn read_number(&self, rt: &impl Files) -> Option<u32> {
        let number = read_order(rt);
        if number.is_none() {
            self.tell(
                b"pk: descriptor 5 has no operation's number; expected a decimal number from 0 to 4294967295\n",
            );
        }
        number
    }
}

// Appends, so that a file there keeps what it has.
fn write_verdict(rt: &impl Files, bad: u64) -> io::Result<()> {
    let mut file = OpenOptions::new().append(true).open(rt, VERDICT)?;
    let mut text = Output::<24>::new();
    text.write_unsigned(bad);
    text.write_bytes(b"\n");
    file.write_all(text.filled())
}

fn read_some(rt: &impl Files, text: &mut [u8; 16]) -> io::Result<usize> {
    let mut file = fs::open(rt, ORDER)?;
    file.read(text)
}

// Reads a number from the descriptor of the order: decimal digits, up to a line feed or the end.
fn read_order(rt: &impl Files) -> Option<u32> {
    let mut text = [0u8; 16];
    let count = read_some(rt, &mut text).unwrap_or(0);
    let line = text_lines::part(&text, 0, count);
    let end = text_lines::find(line, 0, b'\n');
    let number = text_lines::read_unsigned(text_lines::part(line, 0, end)).ok()?;
    u32::try_from(number).ok()
}
