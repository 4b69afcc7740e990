// The product of two words: each of its words alone, and both.
ghost use Rattle.std.specs.Prelude.{◌≡◌, ◌*◌, ◌/◌, ◌%◌, ◌^◌};
ghost use Rattle.word_wide.specs.Value.{value};

use super::Wide;

// The high word of a * b, column by column in base 2^32, each carry added to the next column. No column exceeds 64 bits.
// The compiler turns these four products into one instruction, and likewise those of the low word, as long as each word has a function of its own.
pub fn mul_hi(a: u64, b: u64) -> u64
    ensures { result ≡ a * b / 2 ^ 64 }
{
    let a1 = a >> 32;
    let a0 = a % 0x1_0000_0000;
    let b1 = b >> 32;
    let b0 = b % 0x1_0000_0000;
    let low = a0 * b0;
    let mid = a1 * b0 + (low >> 32);
    let cross = a0 * b1 + mid % 0x1_0000_0000;
    a1 * b1 + (mid >> 32) + (cross >> 32)
}

// The low word of a * b: the same columns, the bits above the word dropped before the addition.
pub fn mul_lo(a: u64, b: u64) -> u64
    ensures { result ≡ a * b % 2 ^ 64 }
{
    let a1 = a >> 32;
    let a0 = a % 0x1_0000_0000;
    let b1 = b >> 32;
    let b0 = b % 0x1_0000_0000;
    let low = a0 * b0;
    let mid = a1 * b0 % 0x1_0000_0000 + a0 * b1 % 0x1_0000_0000 + (low >> 32);
    mid % 0x1_0000_0000 * 0x1_0000_0000 + low % 0x1_0000_0000
}

// Both words.
pub fn mul(a: u64, b: u64) -> Wide
    ensures { value result ≡ a * b }
{
    Wide {
        hi: mul_hi(a, b),
        lo: mul_lo(a, b),
    }
}
