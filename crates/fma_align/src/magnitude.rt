// What holds the magnitudes of a fused sum: one word, or two.
ghost use Rattle.std.specs.Prelude.{◌≡◌, ℕ, ◌+◌, ◌-◌, ◌*◌, ◌<◌, ◌^◌, ◌-ℤ◌};
ghost use Rattle.std.specs.Int.Signed.{mag};
ghost use Rattle.ieee.specs.Pattern.{unlike};
ghost use Rattle.word_wide.specs.Value.{value};
ghost use Rattle.fma_laws.specs.Aligned.{product_at, third_at, down_by, joined, joined_sign};

use crate::align::{Aligned, sides_of};
use crate::sum::{SignedSum, join, sign_of_larger};
use round_wide::sticky::{shr_sticky, shr_sticky_wide};
use word_wide::Wide;
use word_wide::product::mul;

pub trait Magnitude: Copy {
    // The number that it stands for, how many bits hold it, and by how many bits a third number may be shifted left.
    ghost number: { Self → ℕ };

    ghost size: { ℕ };

    ghost left: { ℕ };

    fn product(a: u64, b: u64) -> Self
        requires { a * b < 2 ^ size }
        ensures { number result ≡ a * b };

    // A product p with the exponent e and a third number q with the exponent g, at one exponent.
    fn align(p: Self, q: u64, e: i32, g: i32) -> Aligned<Self>
        requires { (q * 2 ^ left < 2 ^ size) × (mag e < 2 ^ 18) × (mag g < 2 ^ 18) }
        ensures { (number result.product ≡ product_at left (number p) (g -ℤ e))
            × (number result.third ≡ third_at left q (g -ℤ e))
            × (result.down ≡ down_by left (g -ℤ e)) };

    // a with the sign s plus b with the sign t.
    fn add_signed(a: Self, b: Self, s: bool, t: bool) -> SignedSum<Self>
        requires { number a + number b < 2 ^ size }
        ensures { (number result.sum ≡ joined (unlike s t) (number a) (number b)) × (result.neg ≡ joined_sign s t (number a) (number b)) };
}

impl Magnitude for Wide {
    ghost number = { value };

    ghost size = { 128 };

    ghost left = { 64 };

    fn product(a: u64, b: u64) -> Wide {
        mul(a, b)
    }

    // Two words have room for q shifted left by 64 bits: it is then the high word.
    fn align(p: Wide, q: u64, e: i32, g: i32) -> Aligned<Wide> {
        let at = sides_of(e, g);
        if 0 < at.above {
            return Aligned {
                product: p,
                third: Wide::from(shr_sticky(q, at.above)),
                down: 0,
            };
        }
        if at.below < 64 {
            return Aligned {
                product: p,
                third: Wide {
                    hi: word_bits::shl_carry(q, at.below),
                    lo: q << at.below,
                },
                down: 0,
            };
        }
        Aligned {
            product: shr_sticky_wide(p, at.below - 64),
            third: Wide { hi: q, lo: 0 },
            down: at.below - 64,
        }
    }

    // Of unlike signs, the smaller is subtracted from the larger, whose sign remains.
    fn add_signed(a: Wide, b: Wide, s: bool, t: bool) -> SignedSum<Wide> {
        if s == t {
            return SignedSum { sum: a + b, neg: s };
        }
        if a < b {
            return SignedSum { sum: b - a, neg: t };
        }
        SignedSum { sum: a - b, neg: s }
    }
}

impl Magnitude for u64 {
    ghost number = { λ w. w };

    ghost size = { 64 };

    ghost left = { 38 };

    fn product(a: u64, b: u64) -> u64 {
        a * b
    }

    // One word has room for q shifted left by 38 bits. It begins there, and whichever of the two is then below the other is shifted right.
    fn align(p: u64, q: u64, e: i32, g: i32) -> Aligned<u64> {
        let at = sides_of(e, g - 38);
        Aligned {
            product: shr_sticky(p, at.below),
            third: shr_sticky(q << 38, at.above),
            down: at.below,
        }
    }

    fn add_signed(a: u64, b: u64, s: bool, t: bool) -> SignedSum<u64> {
        SignedSum {
            sum: join(s != t, a, b),
            neg: sign_of_larger(a, b, s, t),
        }
    }
}
