// floor: the greatest whole number not above a number.
ghost use Rattle.std.specs.Prelude.{◌≡◌};
ghost use Rattle.ieee.specs.Whole.{floor_of, floor_flags};
ghost use Rattle.fmt_fields.specs.Raised.{flags_of};

use crate::directed::{directed_flags, directed_pattern};
use fmt_fields::env::{Flagged, Raised};
use fmt_fields::width::Width;

pub fn floor<W: Width>(x: W) -> W
    ensures { W.pattern result ≡ floor_of W.layout (W.pattern x) }
{
    W::narrow(directed_pattern(W::format(), x.widen(), false))
}

pub fn floor_flags<W: Width>(x: W) -> Flagged<W, Raised>
    ensures value { W.pattern result.value ≡ floor_of W.layout (W.pattern x) }
    ensures flags { flags_of result.flags ≡ floor_flags W.layout (W.pattern x) }
{
    directed_flags(W::format(), x.widen(), false).narrow()
}
