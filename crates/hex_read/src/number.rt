// A number without its sign, from `0x` to the exponent, as a marked significand and a power of two.
ghost use Rattle.std.specs.Prelude.{◌≡◌, Bool, ℕ, ◌+◌, ◌*◌, ◌≤◌, ◌<◌, ◌^◌, length, pos, ◌+ℤ◌, ◌-ℤ◌};
ghost use Rattle.std.specs.Int.Signed.{mag};
ghost use Rattle.ieee_numeral_laws.specs.Reading.{end_by, point_by, unsigned_of};
ghost use Rattle.hex_read.specs.Scanned.{Holds};
ghost use Rattle.hex_read.specs.Found.{NumberAs};

use crate::exponent::read_exponent;
use crate::lead::Lead;
use crate::scan::scan_digits;

// sig times 2^exp, sig with its sticky mark.
#[derive(Clone, Copy)]
pub struct Number {
    pub sig: u64,
    pub exp: i32,
}

// The power of two of a marked significand: a digit behind the point counts a sixteenth, one that was dropped sixteen times as much, and the mark half.
fn power_of(exp: i32, extra: u32, behind: usize) -> i32
    requires exp { mag exp < 10 ^ 5 }
    requires extra { extra ≤ 64 }
    requires behind { behind ≤ 64 }
    ensures { result ≡ exp +ℤ pos (4 * extra) -ℤ pos (4 * behind + 1) }
{
    exp + 4 * extra as i32 - (4 * behind as i32 + 1)
}

// `p` and the exponent, after n digits, k of them behind the point.
fn read_end(lead: Lead, n: usize, k: usize, s: &[u8]) -> Option<Number>
    requires extra { lead.extra ≤ 64 }
    requires behind { k ≤ 64 }
    ensures { (neg : Bool) (d : ℕ) → Holds d lead → NumberAs neg (end_by neg d n k s.now) result }
{
    let [b'p', rest @ ..] = s else {
        return None;
    };
    if n == 0 {
        return None;
    }
    let exp = read_exponent(rest)?;
    Some(Number {
        sig: lead.marked(),
        exp: power_of(exp, lead.extra, k),
    })
}

// The point and the digits behind it, if any, and the end, after n digits.
fn read_point(lead: Lead, n: usize, s: &[u8]) -> Option<Number>
    requires extra { lead.extra ≤ n }
    requires all { n + length s.now ≤ 64 }
    ensures { (neg : Bool) (d : ℕ) → Holds d lead → NumberAs neg (point_by neg d n s.now) result }
{
    let [b'.', rest @ ..] = s else {
        return read_end(lead, n, 0, s);
    };
    let behind = scan_digits(rest, lead);
    read_end(behind.lead, n + behind.end, behind.end, &rest[behind.end..])
}

// All of s.
pub fn read_number(s: &[u8]) -> Option<Number>
    requires { length s.now ≤ 64 }
    ensures { (neg : Bool) → NumberAs neg (unsigned_of neg s.now) result }
{
    let [b'0', b'x', rest @ ..] = s else {
        return None;
    };
    let ahead = scan_digits(rest, Lead::none());
    read_point(ahead.lead, ahead.end, &rest[ahead.end..])
}
