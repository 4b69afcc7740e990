// Powers of two and shifts of a word that keep track of the bits they drop.
#![tactic(auto)]

ghost use Rattle.std.specs.Prelude.{◌≡◌, ◌*◌, ◌/◌, ◌%◌, ◌-◌, ◌<◌, ◌^◌, ltb};

// A number shifted right, of one word or of more, and whether a nonzero bit was dropped. There is a number in either case, so an Option would not say it.
#[derive(Clone, Copy)]
pub struct Shifted<S> {
    pub value: S,
    pub lost: bool,
}

// 2^k.
pub fn pow(k: u32) -> u64
    requires { k < 64 }
    ensures { result ≡ 2 ^ k }
{
    1 << k
}

// The bits of a * 2^k above the word: those that a shift left by k drops. Two shifts, since for k = 0 a single one would be by the whole word.
pub fn shl_carry(a: u64, k: u32) -> u64
    requires { k < 64 }
    ensures { result ≡ a * 2 ^ k / 2 ^ 64 }
{
    (a >> (63 - k)) >> 1
}

// The bits of a / 2^k below the word: those that a shift right by k drops, at the top of a word of their own.
pub fn shr_carry(a: u64, k: u32) -> u64
    requires { k < 64 }
    ensures { result ≡ a * 2 ^ (64 - k) % 2 ^ 64 }
{
    (a << (63 - k)) << 1
}

// a % 2^k: the low bits that a shift right by k drops.
pub fn low_bits(a: u64, k: u32) -> u64
    requires { k < 64 }
    ensures { result ≡ a % 2 ^ k }
{
    a % pow(k)
}

// a / 2^k for every k. The mark is read from a, which still has the dropped bits.
pub fn shr_lost(a: u64, k: u32) -> Shifted<u64>
    ensures { (result.value ≡ a / 2 ^ k) × (result.lost ≡ ltb 0 (a % 2 ^ k)) }
{
    if k >= 64 {
        return Shifted {
            value: 0,
            lost: 0 < a,
        };
    }
    Shifted {
        value: a >> k,
        lost: 0 < low_bits(a, k),
    }
}
