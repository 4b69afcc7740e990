// ceil: the least whole number not below a number.
ghost use Rattle.std.specs.Prelude.{◌≡◌};
ghost use Rattle.ieee.specs.Whole.{ceil_of, ceil_flags};
ghost use Rattle.fmt_fields.specs.Raised.{flags_of};

use crate::directed::{directed_flags, directed_pattern};
use fmt_fields::env::{Flagged, Raised};
use fmt_fields::width::Width;

pub fn ceil<W: Width>(x: W) -> W
    ensures { W.pattern result ≡ ceil_of W.layout (W.pattern x) }
{
    W::narrow(directed_pattern(W::format(), x.widen(), true))
}

pub fn ceil_flags<W: Width>(x: W) -> Flagged<W, Raised>
    ensures value { W.pattern result.value ≡ ceil_of W.layout (W.pattern x) }
    ensures flags { flags_of result.flags ≡ ceil_flags W.layout (W.pattern x) }
{
    directed_flags(W::format(), x.widen(), true).narrow()
}
