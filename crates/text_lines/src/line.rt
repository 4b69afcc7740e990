// The part of a line that is kept while it is read. The rest of a longer line is skipped and takes no memory.
ghost use Rattle.std.specs.Prelude.{◌≡◌, ◌↔◌, IsTrue};
ghost use Rattle.text_lines.specs.Keeping.{none_kept, MoreKept};
ghost use Rattle.text_lines.specs.Offsets.{part_of};

use crate::scan::part;
use text_numbers::write::write_bytes;

// The bytes that are kept: more than any request has, with ` -> ` after it.
pub const KEPT: usize = 128;

// The first `held` bytes are kept, and there may have been more. An array, as there is no heap; a number of any size may stand in `held`, and no call fails by it.
#[derive(Clone, Copy)]
pub struct Line {
    pub bytes: [u8; KEPT],
    pub held: usize,
    pub is_long: bool,
}

impl Line {
    pub fn new() -> Self
        ensures { none_kept result }
    {
        Line {
            bytes: [0; KEPT],
            held: 0,
            is_long: false,
        }
    }

    // The bytes that are kept.
    pub fn kept(&self) -> &[u8]
        ensures { result.now ≡ part_of self.now.bytes 0 self.now.held }
    {
        part(&self.bytes, 0, self.held)
    }

    pub fn is_empty(&self) -> bool
        ensures { IsTrue result ↔ (self.now.held ≡ 0) }
    {
        self.held == 0
    }

    // Appends the bytes of s to those kept, as far as there is room.
    pub fn keep(&mut self, s: &[u8])
        ensures { MoreKept self.old s.now self.new }
    {
        let room = KEPT.saturating_sub(self.held);
        if s.len() > room {
            self.is_long = true;
        }
        self.held = write_bytes(&mut self.bytes, self.held, &s[..s.len().min(room)]);
    }

    // Begins the next line.
    pub fn clear(&mut self)
        ensures none { none_kept self.new }
        ensures bytes { self.new.bytes ≡ self.old.bytes }
    {
        self.held = 0;
        self.is_long = false;
    }
}
