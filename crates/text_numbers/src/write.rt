// Writes into a borrowed buffer: each writer stores its bytes at an offset and returns the offset after them. Where they do not fit, it stores
// nothing and returns the offset that it was given. The two stay apart here, as `Placed`, by which all these contracts speak, has
// them; the programs have them as one value (cmd_streams).
ghost use Rattle.std.specs.Prelude.{◌≡◌, ◌∷◌, ℕ, ◌+◌, ◌≤◌, ◌<◌, length, nat_abs};
ghost use Rattle.std.proofs.Math.Seq.{paste};
ghost use Rattle.text_numbers.specs.Digits.{digits_of};
ghost use Rattle.text_numbers.specs.Written.{signed_digits, Fewest};
ghost use Rattle.text_numbers.specs.Placed.{Placed};

use crate::digits::fill_digits;

pub fn write_bytes(out: &mut [u8], at: usize, s: &[u8]) -> usize
    ensures { Placed out.old at s.now out.new result }
{
    if at > out.len() || s.len() > out.len() - at {
        return at;
    }
    let end = at + s.len();
    out[at..end].copy_from_slice(s);
    end
}

// The last k digits of n.
pub fn write_digits(out: &mut [u8], at: usize, base: u64, k: usize, n: u64) -> usize
    requires least { 1 < base }
    requires most { base ≤ 16 }
    ensures { Placed out.old at (digits_of base k n) out.new result }
{
    if at > out.len() || k > out.len() - at {
        return at;
    }
    let end = at + k;
    fill_digits(&mut out[at..end], base, n);
    end
}

// A word in `width` digits.
pub fn write_word(out: &mut [u8], at: usize, x: u64, width: usize) -> usize
    ensures { Placed out.old at (digits_of 16 width x) out.new result }
{
    write_digits(out, at, 16, width, x)
}

pub fn digit_count(n: u64) -> usize
    ensures { Fewest n result }
{
    match n.checked_ilog10() {
        Some(k) => k as usize + 1,
        None => 1,
    }
}

// A number in as few decimal digits as possible.
pub fn write_unsigned(out: &mut [u8], at: usize, n: u64) -> usize
    ensures { (k : ℕ) × Fewest n k × Placed out.old at (digits_of 10 k n) out.new result }
{
    write_digits(out, at, 10, digit_count(n), n)
}

// A negative number, by its absolute value. The digits are written first, so that a minus is never left alone.
fn write_minus(out: &mut [u8], at: usize, size: u64) -> usize
    ensures { (k : ℕ) × Fewest size k × Placed out.old at (45 ∷ digits_of 10 k size) out.new result }
{
    let k = digit_count(size);
    if at >= out.len() {
        return at;
    }
    let start = at + 1;
    let end = write_digits(out, start, 10, k, size);
    if end == start {
        return at;
    }
    out[at] = b'-';
    end
}

// A number, with a minus where it is negative.
pub fn write_signed(out: &mut [u8], at: usize, n: i32) -> usize
    ensures { (k : ℕ) × Fewest (nat_abs n) k × Placed out.old at (signed_digits n k) out.new result }
{
    let size = n.unsigned_abs() as u64;
    if n < 0 {
        write_minus(out, at, size)
    } else {
        write_unsigned(out, at, size)
    }
}
