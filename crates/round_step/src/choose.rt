// The choice between a magnitude and the next, by the attribute, the sign, and the location of a value between them.
ghost use Rattle.std.specs.Prelude.{◌≡◌, cond, ◌+◌, ◌≤◌, ◌<◌, ◌^◌};
ghost use Rattle.ieee.specs.Round.{way_of};
ghost use Rattle.fmt_fields.specs.Raised.{attribute_of};
ghost use Rattle.round_laws.specs.Location.{chosen};

use fmt_fields::attribute::Attribute;

// A magnitude, or the next one.
fn next_if(below: u64, next: bool) -> u64
    requires { below < 2 ^ 63 }
    ensures { result ≡ below + cond next 1 0 }
{
    below + u64::from(next)
}

// Down and up have no jump for the sign, which cannot be foreseen.
pub fn choose(attribute: Attribute, neg: bool, below: u64, location: u64) -> u64
    requires { (below < 2 ^ 63) × (location ≤ 3) }
    ensures { result ≡ chosen (way_of (attribute_of attribute) neg) below location }
{
    match attribute {
        Attribute::Even => next_if(below, location + below % 2 > 2),
        Attribute::Zero => below,
        Attribute::Down => next_if(below, neg & (location > 0)),
        Attribute::Up => next_if(below, !neg & (location > 0)),
        Attribute::Away => next_if(below, location >= 2),
    }
}
