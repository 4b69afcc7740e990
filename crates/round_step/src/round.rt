// The rounding step: rounds a sign, a significand and an exponent to a pattern, with the flags.
ghost use Rattle.std.specs.Prelude.{◌≡◌, true, ◌≤◌, ◌<◌, ◌^◌};
ghost use Rattle.std.specs.Int.Signed.{mag};
ghost use Rattle.ieee.specs.Format.{inf};
ghost use Rattle.ieee.specs.Exact.{Exact};
ghost use Rattle.ieee.specs.Pattern.{signed};
ghost use Rattle.ieee.specs.Round.{way_of};
ghost use Rattle.ieee.specs.Scalbn.{scaled};
ghost use Rattle.fmt_fields.specs.Layout.{format_of};
ghost use Rattle.fmt_fields.specs.Raised.{attribute_of, flags_of};
ghost use Rattle.round_laws.specs.Location.{chosen, inside_at};
ghost use Rattle.round_step.specs.Outcome.{outcome, told, chosen_with};

use crate::choose::choose;
use crate::flags::flags_at;
use fmt_fields::attribute::Attribute;
use fmt_fields::env::{Flagged, Raised};
use fmt_fields::layout::Format;
use round_locate::locate::{Located, locate};

// The choice with its sign.
fn signed_choice(fmt: Format, attribute: Attribute, neg: bool, c: Located) -> u64
    requires { (c.below < inf (format_of fmt)) × (c.location ≤ 3) }
    ensures { result ≡ signed (format_of fmt) neg (chosen (way_of (attribute_of attribute) neg) c.below c.location) }
{
    fmt.with_sign(neg, choose(attribute, neg, c.below, c.location))
}

// Chooses between the lower neighbour and the next, and sets the sign and the flags. Every rounding ends here or in `finish_inside`, including overflow, where
// the lower neighbour is the largest number. Where the flags are not asked for the compiler leaves them out.
pub fn finish(fmt: Format, attribute: Attribute, neg: bool, c: Located) -> Flagged<u64, Raised>
    requires { (c.below < inf (format_of fmt)) × (c.location ≤ 3) }
    ensures { told result ≡ chosen_with (format_of fmt) (attribute_of attribute) neg c }
{
    Flagged {
        value: signed_choice(fmt, attribute, neg, c),
        flags: flags_at(fmt, attribute, neg, c),
    }
}

// The same inside the range, where a value is inexact or raises nothing.
pub fn finish_inside(
    fmt: Format,
    attribute: Attribute,
    neg: bool,
    c: Located,
) -> Flagged<u64, Raised>
    requires { (c.below < inf (format_of fmt)) × (c.location ≤ 3) × (true ≡ inside_at (format_of fmt) c.below) }
    ensures { told result ≡ chosen_with (format_of fmt) (attribute_of attribute) neg c }
{
    Flagged {
        value: signed_choice(fmt, attribute, neg, c),
        flags: Raised::inexact_if(c.location >= 1),
    }
}

// sig times 2^exp smallest units of a format, with a sign, rounded once. The last bit of sig may be a sticky mark: if sig has two bits more than the
// format keeps, the mark among them, it rounds as the value that it stands for, and raises the same flags (`sticky_outcome` in proofs/).
pub fn round(
    fmt: Format,
    attribute: Attribute,
    neg: bool,
    sig: u64,
    exp: i32,
) -> Flagged<u64, Raised>
    requires { mag exp ≤ 2 ^ 20 }
    ensures { told result ≡ outcome (format_of fmt) (attribute_of attribute) neg (scaled neg sig exp) }
{
    let c = locate(fmt, sig, exp);
    finish(fmt, attribute, neg, c)
}
