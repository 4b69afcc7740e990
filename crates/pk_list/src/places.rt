// The places of a piece: for each its pattern, and the mark of its flaw if it has one.
ghost use Rattle.std.specs.Prelude.{◌≡◌, ◌+◌, ◌<◌, ◌≤◌, ◌↔◌, IsTrue, slice_set};
ghost use Rattle.pk_list.specs.Placing.{pattern_of, flaw_of, mark_of};

use crate::place::{Flaw, mark};

// The most places of a piece.
pub const PLACES: usize = 8192;

// A place without a pattern has zero for it, so that the places after it keep theirs. So the list call reads the patterns as they lie here.
#[derive(Drop)]
pub struct Places {
    pub patterns: [u64; 8192],
    pub marks: [u64; 8192],
    pub filled: usize,
    ghost within: { filled ≤ 8192 },
}

impl Places {
    pub fn new() -> Self
        ensures { result.filled ≡ 0 }
    {
        Places {
            patterns: [0; PLACES],
            marks: [0; PLACES],
            filled: 0,
        }
    }

    pub fn is_full(&self) -> bool
        ensures { IsTrue result ↔ (self.now.filled ≡ 8192) }
    {
        self.filled == PLACES
    }

    // Fills the next place.
    pub fn push(&mut self, place: Result<u64, Flaw>)
        requires { self.old.filled < 8192 }
        ensures patterns { self.new.patterns ≡ slice_set self.old.patterns self.old.filled (pattern_of place) }
        ensures marks { self.new.marks ≡ slice_set self.old.marks self.old.filled (mark_of (flaw_of place)) }
        ensures filled { self.new.filled ≡ self.old.filled + 1 }
    {
        let next = self.filled;
        self.patterns[next] = place.unwrap_or(0);
        self.marks[next] = mark(place.err());
        self.filled = next + 1;
    }

    pub fn clear(&mut self)
        ensures { self.new.filled ≡ 0 }
    {
        self.filled = 0;
    }
}
