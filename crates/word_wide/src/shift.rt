// Shifts of two words: the bits that leave a word are carried to the next or marked as lost. The shifts of one word are re-exported from `word_bits`.
ghost use Rattle.std.specs.Prelude.{◌≡◌, ◌*◌, ◌/◌, ◌%◌, ◌^◌, ◌<◌, nat_lt};
ghost use Rattle.word_wide.specs.Value.{value};

use crate::Wide;
pub use word_bits::{Shifted, low_bits, pow, shl_carry, shr_carry, shr_lost};

// a * 2^k, where two words hold it.
pub fn shl(a: Wide, k: u32) -> Wide
    requires { (k < 128) × (value a * 2 ^ k < 2 ^ 128) }
    ensures { value result ≡ value a * 2 ^ k }
{
    if k >= 64 {
        return Wide {
            hi: a.lo << (k - 64),
            lo: 0,
        };
    }
    let carry = shl_carry(a.lo, k);
    Wide {
        hi: (a.hi << k) + carry,
        lo: a.lo << k,
    }
}

// a / 2^k for every k, with the mark of the dropped bits. For k of a word or more the whole low word is dropped.
pub fn shr(a: Wide, k: u32) -> Shifted<Wide>
    ensures { (value result.value ≡ value a / 2 ^ k) × (result.lost ≡ nat_lt 0 (value a % 2 ^ k)) }
{
    if k >= 64 {
        let kept = shr_lost(a.hi, k - 64);
        let wide = Wide {
            hi: 0,
            lo: kept.value,
        };
        if 0 < a.lo {
            return Shifted {
                value: wide,
                lost: true,
            };
        }
        return Shifted {
            value: wide,
            lost: kept.lost,
        };
    }
    let kept = shr_lost(a.lo, k);
    let carry = shr_carry(a.hi, k);
    Shifted {
        value: Wide {
            hi: a.hi >> k,
            lo: carry + kept.value,
        },
        lost: kept.lost,
    }
}
