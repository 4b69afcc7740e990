// x times 2^e modulo y, for significands x and y, by a route according to e.
ghost use Rattle.std.specs.Prelude.{◌≡◌, ◌+◌, ◌*◌, ◌%◌, ◌<◌, ◌^◌};

use crate::division::Division;
use fmt_fields::width::Width;
use reduce_modular::modular::{linear_mul_reduction, linear_mul_short};
use word_bits::shl_carry;
use word_division::division::div;
use word_wide::Wide;

// One division. x is below twice y and e below the bits of a word, so the quotient is one word.
pub fn by_division(x: u64, e: u32, y: u64) -> u64
    requires { (x < 2 * y) × (e < 64) }
    ensures { result ≡ x * 2 ^ e % y }
{
    let w = Wide {
        hi: shl_carry(x, e),
        lo: x << e,
    };
    let d = div(w, y);
    d.remainder
}

// Significands of 53 bits. The machine divides where sig times 2^shift fits a word. Otherwise two words are divided by one, and the reducer takes a shift of a word or
// more.
#[inline(always)]
pub fn reduction64(d: Division) -> u64
    requires { (d.sig < 2 ^ 53) × (d.by < 2 ^ 53) }
    ensures { result ≡ d.sig * 2 ^ d.shift % d.by }
{
    if d.shift < 12 {
        return (d.sig << d.shift) % d.by;
    }
    let near = d.below_twice();
    if d.shift < 64 {
        return by_division(near, d.shift, d.by);
    }
    linear_mul_reduction(near, d.shift, d.by)
}

// Of 24 bits: the machine's division goes further, and past it the reducer starts without a long one.
#[inline(always)]
pub fn reduction32(d: Division) -> u64
    requires { (d.sig < 2 ^ 24) × (d.by < 2 ^ 24) }
    ensures { result ≡ d.sig * 2 ^ d.shift % d.by }
{
    if d.shift < 41 {
        return (d.sig << d.shift) % d.by;
    }
    linear_mul_short(d.below_twice(), d.shift, d.by)
}

// The words of the formats, each with the route for its significands.
pub trait Reduced: Width {
    fn reduction(d: Division) -> u64
        requires { (d.sig < 2 ^ (Self.layout.frac + 1)) × (d.by < 2 ^ (Self.layout.frac + 1)) }
        ensures { result ≡ d.sig * 2 ^ d.shift % d.by };
}

impl Reduced for u64 {
    #[inline(always)]
    fn reduction(d: Division) -> u64 {
        reduction64(d)
    }
}

impl Reduced for u32 {
    #[inline(always)]
    fn reduction(d: Division) -> u64 {
        reduction32(d)
    }
}
