// One 32-bit digit of a quotient: estimated from the upper half of the divisor, then corrected.
ghost use Rattle.std.specs.Prelude.{◌≡◌, ◌+◌, ◌-◌, ◌*◌, ◌/◌, ◌^◌, ◌<◌, ◌≤◌, max};
ghost use Rattle.word_division.specs.Estimates.{divided};

// A quotient and its remainder.
#[derive(Clone, Copy)]
pub struct Divided {
    pub quotient: u64,
    pub remainder: u64,
}

// A digit that may be too large, and the rest of the upper part: the upper part less digit times the divisor's upper half.
#[derive(Clone, Copy)]
pub struct Estimate {
    pub digit: u64,
    pub rest: u64,
}

// How far to shift a divisor left to set its top bit. The contract leaves one answer: `shift_unique` (proofs/Only.antt).
pub fn normal_shift(d: u64) -> u32
    requires { 0 < d }
    ensures { (result < 64) × (2 ^ 63 ≤ d * 2 ^ result) × (d * 2 ^ result < 2 ^ 64) }
{
    d.leading_zeros()
}

// Subtracts one where the digit is too large for d and the next digit l. Where rest is a digit or more, the estimate is right.
// One answer: `estimate_unique`.
pub fn adjust_estimate(e: Estimate, l: u64, d: u64) -> Estimate
    requires { (2 ^ 63 ≤ d) × (l < 2 ^ 32) × (divided e d < d) × ((divided e d * 2 ^ 32 + l) / d ≤ e.digit) }
    ensures { (result.digit ≡ max ((divided e d * 2 ^ 32 + l) / d) (e.digit - 1)) × (divided result d ≡ divided e d) }
{
    let q = e.digit;
    let rest = e.rest;
    if rest >= 0x1_0000_0000 {
        return e;
    }
    if q * (d % 0x1_0000_0000) <= rest * 0x1_0000_0000 + l {
        return e;
    }
    Estimate {
        digit: q - 1,
        rest: rest + (d >> 32),
    }
}

// One digit of a quotient: h * 2^32 + l by d, which has its top bit set. The upper half of d alone gives a digit that is at most two too large.
// The remainder is below d, so wrapping arithmetic on one word gives it. One answer: `division_unique`.
pub fn quotient_digit(h: u64, l: u64, d: u64) -> Divided
    requires { (2 ^ 63 ≤ d) × (l < 2 ^ 32) × (h < d) }
    ensures { (result.quotient * d + result.remainder ≡ h * 2 ^ 32 + l) × (result.remainder < d) }
{
    let upper = d >> 32;
    let first = Estimate {
        digit: h / upper,
        rest: h % upper,
    };
    let second = adjust_estimate(first, l, d);
    let third = adjust_estimate(second, l, d);
    let q = third.digit;
    let rest = third.rest;
    let left = ((rest << 32) + l).wrapping_sub(q * (d % 0x1_0000_0000));
    Divided {
        quotient: q,
        remainder: left,
    }
}
