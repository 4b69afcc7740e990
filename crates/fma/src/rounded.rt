// fma under an attribute: x times y plus z, rounded once.
ghost use Rattle.std.specs.Prelude.{◌≡◌, true, ◌+◌, ◌<◌, ◌^◌};
ghost use Rattle.std.specs.Int.Signed.{mag};
ghost use Rattle.ieee.specs.Pattern.{Pattern};
ghost use Rattle.ieee.specs.Fma.{fma_in, fma_flags_in};
ghost use Rattle.ieee.specs.Rounded.{fma_rounded};
ghost use Rattle.fmt_fields.specs.Layout.{format_of};
ghost use Rattle.fmt_fields.specs.Numbered.{rounded_of};
ghost use Rattle.fmt_fields.specs.Raised.{attribute_of, flags_of};
ghost use Rattle.round_step.specs.Outcome.{told};
ghost use Rattle.fma_laws.specs.Fused.{rounded_sum, fma_gives};
ghost use Rattle.fma.specs.Special.{special};

use crate::fused::Fused;
use crate::special::{Operands, zero_sum};
use fma_align::product::Scaled;
use fma_sum::sum::locate_sum;
use fmt_fields::attribute::Attribute;
use fmt_fields::env::{Flagged, Raised};
use fmt_fields::layout::Format;
use fmt_fields::refusal::Refusal;
use round_step::round::{finish, finish_inside};

// The row of operands that have one.
#[inline(always)]
fn by_row(attribute: Attribute, o: Operands) -> Flagged<u64, Raised>
    requires { Pattern (format_of o.fmt) o.z × (special (format_of o.fmt) o.x o.y o.z ≡ true) }
    ensures { told result ≡ fma_gives (format_of o.fmt) (attribute_of attribute) o.x o.y o.z }
{
    Flagged {
        value: o.fma_special(attribute),
        flags: o.special_flags(),
    }
}

// A sum rounded once. One of no steps has terms of unlike signs. Most sums lie inside the range, and there the flags cost little.
#[inline(always)]
fn round_sum(fmt: Format, attribute: Attribute, s: Scaled<u64>) -> Flagged<u64, Raised>
    requires { mag s.exp < 2 ^ 19 + 2 ^ 18 + 2 ^ 7 }
    ensures { told result ≡ rounded_sum (format_of fmt) (attribute_of attribute) s.neg s.sig s.exp }
{
    if s.sig == 0 {
        return Flagged {
            value: zero_sum(fmt, attribute),
            flags: Raised::none(),
        };
    }
    let l = locate_sum(fmt, s);
    if l.inside {
        return finish_inside(fmt, attribute, s.neg, l);
    }
    finish(fmt, attribute, s.neg, l)
}

// Numbers take the sum; everything else, and a zero product, has a row of its own.
#[inline(always)]
pub fn fma_in<W: Fused>(attribute: Attribute, x: W, y: W, z: W) -> Flagged<W, Raised>
    ensures value { W.pattern result.value ≡ fma_in W.layout (attribute_of attribute) (W.pattern x) (W.pattern y) (W.pattern z) }
    ensures flags { flags_of result.flags ≡ fma_flags_in W.layout (attribute_of attribute) (W.pattern x) (W.pattern y) (W.pattern z) }
{
    let o = Operands {
        fmt: W::format(),
        x: x.widen(),
        y: y.widen(),
        z: z.widen(),
    };
    if o.is_special() {
        return by_row(attribute, o).narrow();
    }
    round_sum(o.fmt, attribute, W::fused(o.x, o.y, o.z)).narrow()
}

// By the number of the attribute, as `fma_rounded` of the definitions has it, and C.
pub fn fma_rounded<W: Fused>(number: u32, x: W, y: W, z: W) -> Result<Flagged<W, Raised>, Refusal>
    ensures { rounded_of W.pattern flags_of result ≡ fma_rounded W.layout number (W.pattern x) (W.pattern y) (W.pattern z) }
{
    let attribute = Attribute::try_from(number)?;
    Ok(fma_in(attribute, x, y, z))
}
