// The reduction, x times 2^e modulo y, on 64-bit words: each step of the reducer takes 63 bits of the shift.
// x, e and y stay three parameters: they are the operands, and a step hands on another x and another e. That x is below 2y relates two of them, anew at
// each step, and the bound on y is another in each function: the reducer's, a word's or that of a short divisor.
ghost use Rattle.std.specs.Prelude.{◌≡◌, ◌+◌, ◌-◌, ◌*◌, ◌%◌, ◌≤◌, ◌<◌, ◌^◌};
ghost use Rattle.reduce_laws.specs.Reducer.{Power};
ghost use Rattle.reduce_modular.specs.Held.{Starts};

use crate::reducer::Reducer;
use crate::scale::Scaled;
use crate::start::{start, start_short};
use reduce_stepwise::subtract_once;
use word_division::digit::Divided;

// By a power of two: the low bits of x times 2^e, or 0 where they are all shifted out.
pub fn by_power(x: u64, e: u32, y: u64) -> u64
    requires { Power y }
    ensures { result ≡ x * 2 ^ e % y }
{
    if e >= 64 {
        return 0;
    }
    (x << e) & (y - 1)
}

// By an n that the reducer accepts: two leading zeros, not a power of two. d is the division with which it starts.
pub fn by_words(x: u64, e: u32, n: u64, d: Divided) -> u64
    requires { (2 ^ 61 < n) × (n < 2 ^ 62) × (x < 2 * n) × Starts n d }
    ensures { result ≡ x * 2 ^ e % n }
{
    let mut state = Reducer::new(x, n, d);
    for _ in 0..e / 63 {
        state = state.word_reduce().state;
    }
    let last = state.shift_reduce(e % 63);
    subtract_once(last.state.partial_remainder(), n)
}

// By a scaled divisor: x is scaled with it, and the remainder is scaled back. d is the division with which the reducer starts.
pub fn by_scaled(x: u64, e: u32, n: Scaled, d: Divided) -> u64
    requires { (x < 2 * n.y) × Starts (n.y * 2 ^ n.s) d }
    ensures { result ≡ x * 2 ^ e % n.y }
{
    by_words(x << n.s, e, n.y << n.s, d) >> n.s
}

// By y, where start is how the reducer starts for it: a power of two has a way of its own.
#[inline(always)]
fn reduce_from<F: FnOnce(Scaled) -> Divided>(x: u64, e: u32, y: u64, start: F) -> u64
    requires limits { (x < 2 * y) × (y < 2 ^ 62) }
    requires may_start { (n : Scaled) → n.y ≡ y → F.pre start n }
    requires starts { (n : Scaled) (d : Divided) → F.post start n d → Starts (n.y * 2 ^ n.s) d }
    ensures { result ≡ x * 2 ^ e % y }
{
    match Scaled::of(y) {
        None => by_power(x, e, y),
        Some(n) => by_scaled(x, e, n, start(n)),
    }
}

pub fn linear_mul_reduction(x: u64, e: u32, y: u64) -> u64
    requires { (x < 2 * y) × (y < 2 ^ 62) × (e < 2 ^ 31) }
    ensures { result ≡ x * 2 ^ e % y }
{
    reduce_from(x, e, y, start)
}

// By a y of at most 31 bits, without a long division: where every y is short, as in fmod at 32 bits, no call is left.
pub fn linear_mul_short(x: u64, e: u32, y: u64) -> u64
    requires { (x < 2 * y) × (y < 2 ^ 31) × (e < 2 ^ 31) }
    ensures { result ≡ x * 2 ^ e % y }
{
    reduce_from(x, e, y, start_short)
}
