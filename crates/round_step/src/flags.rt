// The flags of a value, by its lower neighbour and its location.
ghost use Rattle.std.specs.Prelude.{◌≡◌, not, ◌&&◌, ◌||◌, cond, suc, ◌<◌, ◌≤◌, ◌^◌, ltb, eqb};
ghost use Rattle.ieee.specs.Format.{inf};
ghost use Rattle.ieee.specs.Flags.{largest};
ghost use Rattle.fmt_fields.specs.Layout.{format_of};
ghost use Rattle.ieee.specs.Round.{way_of};
ghost use Rattle.fmt_fields.specs.Raised.{flags_of, attribute_of};
ghost use Rattle.round_laws.specs.Flags.{exceeds, rises, flags_by};

use fmt_fields::attribute::Attribute;
use fmt_fields::env::Raised;
use fmt_fields::layout::Format;
use round_locate::locate::Located;
use word_bits::pow;

// One of two, without a jump.
fn pick(first: bool, one: bool, other: bool) -> bool
    ensures { result ≡ cond first one other }
{
    if first { one } else { other }
}

// From the largest finite number up: whether what the value is rounded to would exceed it.
fn exceeds_largest(attribute: Attribute, neg: bool, location: u64, beyond: bool) -> bool
    ensures { result ≡ exceeds (way_of (attribute_of attribute) neg) location beyond }
{
    match attribute {
        Attribute::Even => location >= 2,
        Attribute::Zero => beyond,
        Attribute::Down => pick(neg, location >= 1, beyond),
        Attribute::Up => pick(neg, beyond, location >= 1),
        Attribute::Away => location >= 2,
    }
}

// From the largest subnormal number up: whether what the value is rounded to would be normal.
fn rises_to_normal(attribute: Attribute, neg: bool, location: u64, high: bool, beyond: bool) -> bool
    ensures { result ≡ rises (way_of (attribute_of attribute) neg) location high beyond }
{
    match attribute {
        Attribute::Even => high,
        Attribute::Zero => beyond,
        Attribute::Down => pick(neg, location >= 3, beyond),
        Attribute::Up => pick(neg, beyond, location >= 3),
        Attribute::Away => high,
    }
}

// Past the largest finite number, which is just below infinity.
fn overflows(fmt: Format, below: u64, past: bool) -> bool
    ensures { result ≡ eqb below (largest (format_of fmt)) && past }
{
    below == fmt.infinity() - 1 && past
}

// Tininess is judged after rounding: just below the least normal number, the value may be rounded to it.
fn is_tiny(frac: u32, below: u64, normal: bool) -> bool
    requires { (frac < 64) × (below < 2 ^ 63) }
    ensures { result ≡ ltb (suc below) (2 ^ frac) || (eqb (suc below) (2 ^ frac) && not normal) }
{
    let next = below + 1;
    let least = pow(frac);
    if next == least {
        return !normal;
    }
    next < least
}

// The flags of a value at its lower neighbour, which is finite.
pub fn flags_at(fmt: Format, attribute: Attribute, neg: bool, c: Located) -> Raised
    requires { c.below < inf (format_of fmt) }
    ensures { flags_of result ≡ flags_by (format_of fmt) (way_of (attribute_of attribute) neg) c.below c.location c.high c.beyond }
{
    let past = exceeds_largest(attribute, neg, c.location, c.beyond);
    let normal = rises_to_normal(attribute, neg, c.location, c.high, c.beyond);
    let over = overflows(fmt, c.below, past);
    Raised::judge(over, is_tiny(fmt.frac, c.below, normal), c.location >= 1)
}
