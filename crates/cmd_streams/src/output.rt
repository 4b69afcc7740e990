// Bytes to be written out, in a buffer of a fixed size.
ghost use Rattle.std.specs.Prelude.{◌≡◌, ◌↔◌, ℕ, ◌+◌, ◌≤◌, nat_abs, IsTrue};
ghost use Rattle.text_lines.specs.Offsets.{part_of};
ghost use Rattle.text_numbers.specs.Digits.{digits_of};
ghost use Rattle.text_numbers.specs.Placed.{Placed};
ghost use Rattle.text_numbers.specs.Written.{signed_digits, Fewest};

use std::fmt;

// The buffer, and the offset after the bytes that are filled. What does not fit is left out. An array, as the programs have no heap.
#[derive(Clone, Copy)]
pub struct Output<const N: usize> {
    pub bytes: [u8; N],
    pub end: usize,
}

impl<const N: usize> Output<N> {
    pub fn new() -> Self
        ensures { result.end ≡ 0 }
    {
        Output {
            bytes: [0; N],
            end: 0,
        }
    }

    // The bytes that are filled.
    pub fn filled(&self) -> &[u8]
        ensures { result.now ≡ part_of self.now.bytes 0 self.now.end }
    {
        text_lines::part(&self.bytes, 0, self.end)
    }

    pub fn has_room(&self, more: usize) -> bool
        ensures { IsTrue result ↔ (self.now.end + more ≤ N) }
    {
        self.end <= N && more <= N - self.end
    }

    pub fn clear(&mut self)
        ensures { self.new ≡ record self.old { end = 0 } }
    {
        self.end = 0;
    }

    pub fn write_bytes(&mut self, s: &[u8])
        ensures { Placed self.old.bytes self.old.end s.now self.new.bytes self.new.end }
    {
        self.end = text_lines::write_bytes(&mut self.bytes, self.end, s);
    }

    // A word in `width` digits.
    pub fn write_word(&mut self, x: u64, width: usize)
        ensures { Placed self.old.bytes self.old.end (digits_of 16 width x) self.new.bytes self.new.end }
    {
        self.end = text_lines::write_word(&mut self.bytes, self.end, x, width);
    }

    pub fn write_unsigned(&mut self, n: u64)
        ensures { (k : ℕ) × Fewest n k × Placed self.old.bytes self.old.end (digits_of 10 k n) self.new.bytes self.new.end }
    {
        self.end = text_lines::write_unsigned(&mut self.bytes, self.end, n);
    }

    pub fn write_signed(&mut self, n: i32)
        ensures { (k : ℕ) × Fewest (nat_abs n) k × Placed self.old.bytes self.old.end (signed_digits n k) self.new.bytes self.new.end }
    {
        self.end = text_lines::write_signed(&mut self.bytes, self.end, n);
    }
}

impl<const N: usize> fmt::Write for Output<N> {
    ghost write_str_gives = { λ old s new. Placed old.bytes old.end s new.bytes new.end };

    fn write_str(&mut self, s: &str) -> fmt::Result {
        self.write_bytes(s.as_bytes());
        Ok(())
    }
}
