// Shifts the last bits out of a word and finds their location.
ghost use Rattle.std.specs.Prelude.{◌≡◌, ◌/◌, ◌%◌, ◌^◌, ◌≤◌, if◌then◌else◌, nat_eq};
ghost use Rattle.round_laws.specs.Location.{part, high_part};

use word_bits::pow;

// What is kept of a word, and where the bits that were shifted out lie.
#[derive(Clone, Copy)]
pub struct ShiftedOut {
    pub kept: u64,
    // A number, as in `Located`.
    pub location: u64,
    // Whether the bits are at least three quarters of the last kept one.
    pub high: bool,
}

// Three quarters of 2^64.
const THREE_QUARTERS: u64 = 13835058055282163712;

// The sticky mark: 1 unless x is 0.
pub fn sticky_bit(x: u64) -> u64
    ensures { result ≡ (if nat_eq x 0 then 0 else 1) }
{
    u64::from(x != 0)
}

// s without its last k bits, and the location of these: 0 for none set, 1 for less than half of the last kept bit, 2 for half, 3 for more.
// Both are read from s before the shift. They are high where the two foremost are set. k is a plain number with its bounds, as the count of every shift is.
pub fn shift_out(s: u64, k: u32) -> ShiftedOut
    requires { (1 ≤ k) × (k ≤ 64) }
    ensures { (result.kept ≡ s / 2 ^ k) × (result.location ≡ part (s % 2 ^ k) (2 ^ k)) × (result.high ≡ high_part (s % 2 ^ k) (2 ^ k)) }
{
    let half = pow(k - 1);
    let halves = s / half;
    ShiftedOut {
        kept: halves / 2,
        location: 2 * (halves % 2) + sticky_bit(s % half),
        high: s << (64 - k) >= THREE_QUARTERS,
    }
}
