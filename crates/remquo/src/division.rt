// Long division, one bit of the quotient at a time, of which the last 32 are kept; and the nearest multiple.
ghost use Rattle.std.specs.Prelude.{◌≡◌, ◌+◌, ◌*◌, ◌/◌, ◌%◌, ◌^◌, ◌<◌};

// A division as far as it has come: the remainder, the divisor, and the last 32 bits of the quotient.
#[derive(Clone, Copy)]
pub struct Division {
    pub rem: u64,
    pub div: u64,
    pub quo: u32,
    ghost below: { rem < div },
    ghost small: { div < 2 ^ 63 },
}

// The nearest multiple: whether it is the next one or the one below, its distance, and the last 32 bits of its number.
#[derive(Clone, Copy)]
pub struct Choice {
    pub up: bool,
    pub rest: u64,
    pub quo: u32,
}

// One bit, for a remainder below twice the divisor and a quotient whose last bit is still 0. As in libm the top bit of the wrapped difference says which is less:
// of a comparison the compiler would make a jump here, which cannot be foreseen.
pub fn divide_bit(rem: u64, div: u64, quo: u32) -> Division
    requires { (rem < 2 * div) × (div < 2 ^ 63) × (quo % 2 ≡ 0) }
    ensures { (result.rem ≡ rem % div) × (result.quo ≡ quo + rem / div) × (result.div ≡ div) }
{
    let less = rem.wrapping_sub(div);
    if less >= 0x8000_0000_0000_0000 {
        return Division { rem, div, quo };
    }
    Division {
        rem: less,
        div,
        quo: quo + 1,
    }
}

// num times 2^n by div. The quotient keeps its last 32 bits: each doubling drops the top one.
pub fn long_divide(num: u64, div: u64, n: u32) -> Division
    requires { (num < 2 * div) × (div < 2 ^ 63) }
    ensures { (result.rem ≡ num * 2 ^ n % div) × (result.quo ≡ num * 2 ^ n / div % 2 ^ 32) × (result.div ≡ div) }
{
    let mut d = divide_bit(num, div, 0);
    for _ in 0..n {
        d = divide_bit(d.rem * 2, div, d.quo % 0x8000_0000 * 2);
    }
    d
}

impl Division {
    ghost use Rattle.std.specs.Prelude.{◌≡◌, ◌%◌, ◌^◌};
    ghost use Rattle.remquo.specs.Nearest.{goes_up, counted, left_over};

    // The next multiple where twice the remainder, plus the quotient's last bit, exceeds the divisor: that bit takes a tie to the even multiple. Otherwise the one
    // below. The incremented quotient wraps where its 32 bits are all ones: its last 32 bits are still right.
    pub fn nearest_multiple(self) -> Choice
        ensures { (result.up ≡ goes_up self.rem self.div self.quo) × (result.rest ≡ left_over self.rem self.div self.quo) × (result.quo ≡ counted self.rem self.div self.quo % 2 ^ 32) }
    {
        let odd = (self.quo % 2) as u64;
        if self.rem * 2 + odd > self.div {
            return Choice {
                up: true,
                rest: self.div - self.rem,
                quo: self.quo.wrapping_add(1),
            };
        }
        Choice {
            up: false,
            rest: self.rem,
            quo: self.quo,
        }
    }
}
