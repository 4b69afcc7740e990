// The division with which the reducer starts: R(R/2 - m) by m, where R is 2^64 and m is twice the scaled divisor.
ghost use Rattle.std.specs.Prelude.{◌*◌, ◌<◌, ◌^◌};
ghost use Rattle.reduce_modular.specs.Held.{Starts};

use crate::scale::Scaled;
use word_division::digit::Divided;
use word_division::division::div;
use word_wide::Wide;

// For a y of at most 31 bits, by two machine divisions: RR/2 by m is 2^(126 - s) by y, and that goes in two digits, 2^63 and then 63 - s bits more.
// The shift drops the quotient's bit R.
pub fn start_short(n: Scaled) -> Divided
    requires { n.y < 2 ^ 31 }
    ensures { Starts (n.y * 2 ^ n.s) result }
{
    let y = n.y;
    let k = 63 - n.s;
    let rest = (0x8000_0000_0000_0000 % y) << k;
    Divided {
        quotient: ((0x8000_0000_0000_0000 / y) << k) + rest / y,
        remainder: (rest % y) << (n.s + 1),
    }
}

// A longer y takes a long division.
pub fn start(n: Scaled) -> Divided
    ensures { Starts (n.y * 2 ^ n.s) result }
{
    if n.y < 0x8000_0000 {
        return start_short(n);
    }
    let m = 2 * (n.y << n.s);
    div(
        Wide {
            hi: 0x8000_0000_0000_0000 - m,
            lo: 0,
        },
        m,
    )
}
