// The end of a division to the nearest: the multiple below or the next, the remainder as a pattern, and the quotient with its sign.
ghost use Rattle.std.specs.Prelude.{◌≡◌, ◌+◌, ◌%◌, ◌^◌, ◌<◌};
ghost use Rattle.ieee.specs.Format.{units, inf};
ghost use Rattle.ieee.specs.Pattern.{signed, unlike, with_sign};
ghost use Rattle.ieee.specs.Round.{exactly};
ghost use Rattle.fmt_fields.specs.Layout.{format_of};
ghost use Rattle.fmt_decode.specs.Significand.{units_at, InRange};
ghost use Rattle.remquo.specs.Nearest.{goes_up, counted, left_over};

use crate::answer::Remquo;
use crate::division::Division;
use fmt_decode::pack::pack;
use fmt_fields::layout::Format;

// The last 31 bits of the quotient, with its sign.
pub fn signed_quotient(neg: bool, quo: u32) -> i32
    ensures { result ≡ with_sign neg (quo % 2 ^ 31) }
{
    let kept = (quo % 2147483648) as i32;
    if neg {
        return -kept;
    }
    kept
}

// The end of every division: takes the multiple below or the next. For the next, the remainder has the other sign.
pub fn settle(fmt: Format, neg: bool, differ: bool, d: Division, exp: i32) -> Remquo<u64>
    requires { (d.div < 2 ^ (fmt.frac + 2)) × InRange (format_of fmt) exp
        × (units_at (format_of fmt) (left_over d.rem d.div d.quo) exp < units (format_of fmt) (inf (format_of fmt))) }
    ensures { (result.value ≡ signed (format_of fmt) (unlike neg (goes_up d.rem d.div d.quo))
        (exactly (format_of fmt) (units_at (format_of fmt) (left_over d.rem d.div d.quo) exp)))
        × (result.quotient ≡ with_sign differ (counted d.rem d.div d.quo % 2 ^ 31)) }
{
    let near = d.nearest_multiple();
    let rest = pack(fmt, near.rest, exp);
    Remquo {
        value: fmt.with_sign(neg != near.up, rest),
        quotient: signed_quotient(differ, near.quo),
    }
}
