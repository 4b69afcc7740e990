// Normalises a significand: shifts it to the top of its word and adjusts its exponent.
ghost use Rattle.std.specs.Prelude.{◌≡◌, ◌*◌, ◌^◌, ◌<◌, ◌≤◌, pos, ◌+ℤ◌, ◌-ℤ◌};
ghost use Rattle.std.specs.Int.Signed.{mag};
ghost use Rattle.std.specs.Int.Count.{count_leading_zeros};

// The exponent is offset by 2^21, so that it is never negative and the comparisons that follow are of whole numbers.
#[derive(Clone, Copy)]
pub struct Normal {
    pub sig: u64,
    pub at: u32,
}

// An exponent less the leading zeros of its significand, offset by 2^21.
pub fn offset_exponent(exp: i32, zeros: u32) -> u32
    requires { (mag exp ≤ 2 ^ 20) × (zeros ≤ 64) }
    ensures { pos result ≡ exp -ℤ pos zeros +ℤ pos 2097152 }
{
    (exp - zeros as i32 + 2097152) as u32
}

// The same value with the leading bit of the significand at the top of its word.
pub fn normalise(sig: u64, exp: i32) -> Normal
    requires { (0 < sig) × (mag exp ≤ 2 ^ 20) }
    ensures { (result.sig ≡ sig * 2 ^ count_leading_zeros 64 sig) × (pos result.at ≡ exp -ℤ pos (count_leading_zeros 64 sig) +ℤ pos 2097152) }
{
    let zeros = sig.leading_zeros();
    Normal {
        sig: sig << zeros,
        at: offset_exponent(exp, zeros),
    }
}
