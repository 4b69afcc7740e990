// scalbn: x times 2^n, rounded once to the nearest, ties to even.
ghost use Rattle.std.specs.Prelude.{◌≡◌};
ghost use Rattle.ieee.specs.Scalbn.{scalbn_of, scalbn_flags};
ghost use Rattle.fmt_fields.specs.Raised.{flags_of};

use crate::rounded::scalbn_in;
use fmt_fields::attribute::Attribute;
use fmt_fields::env::{Flagged, Raised};
use fmt_fields::width::Width;

pub fn scalbn<W: Width>(x: W, n: i32) -> W
    ensures { W.pattern result ≡ scalbn_of W.layout (W.pattern x) n }
{
    scalbn_in(Attribute::Even, x, n).value
}

pub fn scalbn_flags<W: Width>(x: W, n: i32) -> Flagged<W, Raised>
    ensures value { W.pattern result.value ≡ scalbn_of W.layout (W.pattern x) n }
    ensures flags { flags_of result.flags ≡ scalbn_flags W.layout (W.pattern x) n }
{
    scalbn_in(Attribute::Even, x, n)
}
