// fma: x times y plus z, rounded once.
ghost use Rattle.std.specs.Prelude.{◌≡◌};
ghost use Rattle.ieee.specs.Fma.{fma_of, fma_flags};
ghost use Rattle.fmt_fields.specs.Raised.{flags_of};

use crate::fused::Fused;
use crate::rounded::fma_in;
use fmt_fields::attribute::Attribute;
use fmt_fields::env::{Flagged, Raised};

// Where the flags are not asked for the compiler leaves them out.
pub fn fma<W: Fused>(x: W, y: W, z: W) -> W
    ensures { W.pattern result ≡ fma_of W.layout (W.pattern x) (W.pattern y) (W.pattern z) }
{
    fma_flags(x, y, z).value
}

#[inline(always)]
pub fn fma_flags<W: Fused>(x: W, y: W, z: W) -> Flagged<W, Raised>
    ensures value { W.pattern result.value ≡ fma_of W.layout (W.pattern x) (W.pattern y) (W.pattern z) }
    ensures flags { flags_of result.flags ≡ fma_flags W.layout (W.pattern x) (W.pattern y) (W.pattern z) }
{
    fma_in(Attribute::Even, x, y, z)
}
