// Shifts that keep a sticky mark: the last bit is set where a nonzero bit was dropped.
ghost use Rattle.std.specs.Prelude.{◌≡◌, cond, ◌+◌, ◌*◌, ◌/◌};
ghost use Rattle.word_wide.specs.Value.{value};
ghost use Rattle.round_wide.specs.Stuck.{stuck};

use word_bits::shr_lost;
use word_wide::Wide;
use word_wide::shift::shr;

// A word with its last bit set where a nonzero bit was lost.
pub fn set_sticky(word: u64, lost: bool) -> u64
    ensures { result ≡ cond lost (word / 2 * 2 + 1) word }
{
    if lost { word / 2 * 2 + 1 } else { word }
}

// v without its last k bits, for every k, with a sticky mark. A word that is shifted by more than 63 leaves only the mark, as by 63.
pub fn shr_sticky(v: u64, k: u32) -> u64
    ensures { result ≡ stuck v k }
{
    let kept = shr_lost(v, k.min(63));
    set_sticky(kept.value, kept.lost)
}

// The same for two words. The mark is in the low one.
pub fn shr_sticky_wide(v: Wide, k: u32) -> Wide
    ensures { value result ≡ stuck (value v) k }
{
    let kept = shr(v, k);
    Wide {
        hi: kept.value.hi,
        lo: set_sticky(kept.value.lo, kept.lost),
    }
}
