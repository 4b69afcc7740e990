// A divisor scaled until it has two leading zeros, as the reducer requires.
ghost use Rattle.std.specs.Prelude.{◌≡◌, ◌-◌, ◌*◌, ◌≤◌, ◌<◌, ◌^◌, eqb};
ghost use Rattle.std.specs.Int.Count.{count_leading_zeros};

// A divisor that is no power of two, and the shift that leaves it two leading zeros.
#[derive(Clone, Copy)]
pub struct Scaled {
    pub y: u64,
    pub s: u32,
    ghost few: { s < 62 },
    ghost above: { 2 ^ 61 < y * 2 ^ s },
    ghost below: { y * 2 ^ s < 2 ^ 62 },
}

// The scale that leaves y two leading zeros.
pub fn scale_of(y: u64) -> u32
    requires { (0 < y) × (y < 2 ^ 62) }
    ensures { (result ≡ count_leading_zeros 64 y - 2) × (result < 62) × (2 ^ 61 ≤ y * 2 ^ result) × (y * 2 ^ result < 2 ^ 62) × (y ≤ y * 2 ^ result) }
{
    y.leading_zeros() - 2
}

// Whether y is a power of two, by its only bit: scaled by s it is 2^61.
pub fn is_power(y: u64, s: u32) -> bool
    requires { (s < 62) × (y * 2 ^ s < 2 ^ 62) }
    ensures { result ≡ eqb (y * 2 ^ s) (2 ^ 61) }
{
    y << s == 0x2000_0000_0000_0000
}

impl Scaled {
    ghost use Rattle.std.specs.Prelude.{◌≡◌, ◌<◌, ◌^◌, MatchOption};
    ghost use Rattle.reduce_laws.specs.Reducer.{Power};

    // y with its scale, or None where it is a power of two.
    #[inline(always)]
    pub fn of(y: u64) -> Option<Scaled>
        requires { (0 < y) × (y < 2 ^ 62) }
        ensures { MatchOption result (Power y) (λ n. n.y ≡ y) }
    {
        let s = scale_of(y);
        if is_power(y, s) {
            return None;
        }
        Some(Scaled { y, s })
    }
}
