// A whole number next to a root, rounded by an attribute. Its residual tells which whole number that is, and whether the root is exact; there is no tie.
ghost use Rattle.std.specs.Prelude.{◌≡◌, false, not, ◌≤◌, ◌<◌, ◌^◌};
ghost use Rattle.ieee.specs.Flags.{only_inexact};
ghost use Rattle.ieee.specs.Round.{way_of};
ghost use Rattle.fmt_fields.specs.Layout.{format_of};
ghost use Rattle.fmt_fields.specs.Raised.{attribute_of, flags_of};
ghost use Rattle.sqrt_table.specs.Residual.{exact_by};
ghost use Rattle.sqrt_number.specs.Split.{limit_by, rises_by, whole_by, rounded_by, Room};

use fmt_fields::attribute::Attribute;
use fmt_fields::env::{Flagged, Raised};
use fmt_fields::layout::Format;
use sqrt_table::root::NearRoot;
use word_bits::pow;

// No residual, or that of the next number, which is then the root.
fn is_exact(near: NearRoot) -> bool
    requires { near.root < 2 ^ 62 }
    ensures { result ≡ exact_by near.root near.rem }
{
    (near.rem == 0) | (near.rem == 2 * near.root + 1)
}

// The residual past which the next number is taken. The middle to it has the square root² + root + 1/4, and it has itself root² + 2 root + 1.
fn limit(attribute: Attribute, root: u64) -> u64
    requires { root < 2 ^ 62 }
    ensures { result ≡ limit_by (way_of (attribute_of attribute) false) root }
{
    match attribute {
        Attribute::Even => root,
        Attribute::Zero => 2 * root,
        Attribute::Down => 2 * root,
        Attribute::Up => 2 * root,
        Attribute::Away => root,
    }
}

// Whether a root that is not exact goes up from the root rounded down. An arm for each, so that a further attribute is not passed over.
fn rises(attribute: Attribute) -> bool
    ensures { result ≡ rises_by (way_of (attribute_of attribute) false) }
{
    match attribute {
        Attribute::Even => false,
        Attribute::Zero => false,
        Attribute::Down => false,
        Attribute::Up => true,
        Attribute::Away => false,
    }
}

// The whole number that the attribute takes. Nothing branches on the attribute.
fn to_whole(attribute: Attribute, near: NearRoot, exact: bool) -> u64
    requires { (near.root < 2 ^ 62) × (exact ≡ exact_by near.root near.rem) }
    ensures { result ≡ whole_by (way_of (attribute_of attribute) false) near.root near.rem }
{
    let next = u64::from(near.rem > limit(attribute, near.root));
    let last = u64::from(rises(attribute) & !exact);
    near.root + next + last
}

// The number at the lifted exponent, where that is normal. It neither overflows nor underflows, so it is inexact or nothing.
pub fn round_near(
    fmt: Format,
    attribute: Attribute,
    near: NearRoot,
    up: u32,
) -> Flagged<u64, Raised>
    requires { Room (format_of fmt) near.root up }
    ensures value { result.value ≡ rounded_by (way_of (attribute_of attribute) false) fmt.frac near.root near.rem up }
    ensures flags { flags_of result.flags ≡ only_inexact (not (exact_by near.root near.rem)) }
{
    let exact = is_exact(near);
    let whole = to_whole(attribute, near, exact);
    Flagged {
        value: (up / 2 - 2) as u64 * pow(fmt.frac) + whole,
        flags: Raised::inexact_if(!exact),
    }
}
