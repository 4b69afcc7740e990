// The quotient and the remainder of a two-word number by a word: long division with two digits of 32 bits.
ghost use Rattle.std.specs.Prelude.{◌≡◌, ◌+◌, ◌*◌, ◌%◌, ◌<◌};
ghost use Rattle.word_wide.specs.Value.{value};

pub use crate::digit::Divided;
use crate::digit::{normal_shift, quotient_digit};
use word_wide::Wide;
use word_wide::shift::shl;

// a by d, where the quotient is one word. A one-word a takes the machine's division. Otherwise both are shifted left until d has its top bit set,
// which leaves the quotient unchanged, and the remainder is shifted back.
// One answer: `division_unique` (proofs/Only.antt).
pub fn div(a: Wide, d: u64) -> Divided
    requires { a.hi < d }
    ensures { (result.quotient * d + result.remainder ≡ value a) × (result.remainder < d) }
{
    if a.hi == 0 {
        return Divided {
            quotient: a.lo / d,
            remainder: a.lo % d,
        };
    }
    let s = normal_shift(d);
    let n = d << s;
    let w = shl(a, s);
    let one = quotient_digit(w.hi, w.lo >> 32, n);
    let two = quotient_digit(one.remainder, w.lo % 0x1_0000_0000, n);
    Divided {
        quotient: one.quotient * 0x1_0000_0000 + two.quotient,
        remainder: two.remainder >> s,
    }
}
