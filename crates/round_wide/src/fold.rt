// Folds a two-word number into one word, whose last bit is the sticky mark.
ghost use Rattle.std.specs.Prelude.{◌≡◌, ◌-◌, ◌≤◌, ◌^◌, pos, ◌+ℤ◌};
ghost use Rattle.std.specs.Int.Count.{count_leading_zeros};
ghost use Rattle.std.specs.Int.Signed.{mag};
ghost use Rattle.word_wide.specs.Value.{value};
ghost use Rattle.round_wide.specs.Stuck.{stuck};

use crate::sticky::set_sticky;
use word_bits::shl_carry;
use word_wide::Wide;

// A number without its last `down` bits, which left a sticky mark.
#[derive(Clone, Copy)]
pub struct Folded {
    pub sig: u64,
    pub down: u32,
}

// Where the high word is not 0, the number is shifted left by its leading zeros, so that the top bit is set; the bits still in the low word are dropped.
// One word stays as it is.
pub fn fold(w: Wide) -> Folded
    ensures { (result.sig ≡ stuck (value w) (64 - count_leading_zeros 64 w.hi)) × (result.down ≡ 64 - count_leading_zeros 64 w.hi) }
{
    if w.hi == 0 {
        return Folded { sig: w.lo, down: 0 };
    }
    let zeros = w.hi.leading_zeros();
    let kept = (w.hi << zeros) + shl_carry(w.lo, zeros);
    let rest = w.lo << zeros;
    Folded {
        sig: set_sticky(kept, 0 < rest),
        down: 64 - zeros,
    }
}

// The exponent of a number after its last k bits were dropped.
pub fn add_to_exponent(exp: i32, k: u32) -> i32
    requires { (mag exp ≤ 2 ^ 20) × (k ≤ 2 ^ 21) }
    ensures { result ≡ exp +ℤ pos k }
{
    exp + k as i32
}
