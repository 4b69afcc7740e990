// Signed exponents: clamped to a range, and exponent fields moved by them.
#![tactic(auto)]

ghost use Rattle.std.specs.Prelude.{◌≡◌, ◌<◌, ◌^◌, pos, ◌+ℤ◌};
ghost use Rattle.ieee.specs.Scalbn.{clamp};
ghost use Rattle.fmt_exponents.specs.Field.{above, depth_of};

// n clamped to [-reach, reach], so that no sum with it can wrap.
pub fn clamp_exponent(reach: u32, n: i32) -> i32
    requires { reach < 2 ^ 17 }
    ensures { result ≡ clamp reach n }
{
    let most = reach as i32;
    n.clamp(-1 - most, most)
}

// The exponent field `at` moved by n. At 64 bits the sum cannot wrap, whatever n.
pub fn move_field(at: u64, n: i32) -> i64
    requires { at < 2 ^ 18 }
    ensures { result ≡ n +ℤ pos at }
{
    i64::from(n) + at as i64
}

// The field itself, or 0 for a negative one.
pub fn field_or_zero(to: i64) -> u64
    ensures { result ≡ above to }
{
    to.max(0) as u64
}

// How many bits of a significand lie below the smallest unit, where the field is 0 or less; 64, which is all of them, stands for any more.
pub fn bits_below_unit(to: i64) -> u32
    ensures { result ≡ depth_of to }
{
    (1 - to.clamp(-63, 0)) as u32
}
