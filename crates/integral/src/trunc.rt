// trunc: the whole part of a number, with its sign.
ghost use Rattle.std.specs.Prelude.{◌≡◌};
ghost use Rattle.ieee.specs.Pattern.{Pattern};
ghost use Rattle.ieee.specs.Whole.{trunc_of, trunc_flags};
ghost use Rattle.fmt_fields.specs.Layout.{format_of};
ghost use Rattle.fmt_fields.specs.Raised.{flags_of};

use crate::flags::flags;
use crate::point::{canonicalise, tail_mask};
use fmt_fields::env::{Flagged, Raised};
use fmt_fields::layout::Format;
use fmt_fields::width::Width;

// Cuts off the bits behind the point.
fn trunc_pattern(fmt: Format, x: u64) -> u64
    requires { Pattern (format_of fmt) x }
    ensures value { result ≡ trunc_of (format_of fmt) x }
    ensures held { Pattern (format_of fmt) result }
{
    let one = canonicalise(fmt, x);
    tail_mask(fmt, x).clear(one)
}

pub fn trunc<W: Width>(x: W) -> W
    ensures { W.pattern result ≡ trunc_of W.layout (W.pattern x) }
{
    W::narrow(trunc_pattern(W::format(), x.widen()))
}

pub fn trunc_flags<W: Width>(x: W) -> Flagged<W, Raised>
    ensures value { W.pattern result.value ≡ trunc_of W.layout (W.pattern x) }
    ensures flags { flags_of result.flags ≡ trunc_flags W.layout (W.pattern x) }
{
    let fmt = W::format();
    let from = x.widen();
    let whole = trunc_pattern(fmt, from);
    Flagged {
        value: W::narrow(whole),
        flags: flags(fmt, from, whole),
    }
}
