// The root of a finite positive number with its flags, under an attribute.
ghost use Rattle.std.specs.Prelude.{◌≡◌};
ghost use Rattle.ieee.specs.Sqrt.{sqrt_in, sqrt_flags_in};
ghost use Rattle.fmt_fields.specs.Raised.{attribute_of, flags_of};
ghost use Rattle.sqrt_number.specs.Split.{Above};

use crate::by_table;
use crate::rooted::Rooted;
use crate::split::Split;
use fmt_decode::norm::norm_of;
use fmt_fields::attribute::Attribute;
use fmt_fields::env::{Flagged, Raised};

#[inline(always)]
pub fn sqrt_number_in<W: Rooted>(attribute: Attribute, x: u64) -> Flagged<W, Raised>
    requires { Above W.layout x }
    ensures value { W.pattern result.value ≡ sqrt_in W.layout (attribute_of attribute) x }
    ensures flags { flags_of result.flags ≡ sqrt_flags_in W.layout (attribute_of attribute) x }
{
    let fmt = W::format();
    by_table(attribute, Split::of(fmt, norm_of(fmt, x)))
}
