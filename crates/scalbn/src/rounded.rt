// scalbn under an attribute: x times 2^n, rounded once, with the flags.
ghost use Rattle.std.specs.Prelude.{◌≡◌, ◌≢◌, true, false, ℤ};
ghost use Rattle.ieee.specs.Pattern.{Pattern, field};
ghost use Rattle.ieee.specs.Scalbn.{scalbn_in, scalbn_flags_in};
ghost use Rattle.ieee.specs.Rounded.{scalbn_rounded};
ghost use Rattle.fmt_fields.specs.Layout.{format_of};
ghost use Rattle.fmt_fields.specs.Normal.{normal};
ghost use Rattle.fmt_fields.specs.Raised.{flags_of, attribute_of};
ghost use Rattle.fmt_fields.specs.Numbered.{rounded_of};
ghost use Rattle.scalbn.specs.Scales.{Scales};

use crate::classes::{locate_moved, locate_subnormal, moved_field};
use crate::moves::{scale_special, with_field};
use fmt_fields::attribute::Attribute;
use fmt_fields::env::{Flagged, Raised};
use fmt_fields::layout::Format;
use fmt_fields::refusal::Refusal;
use fmt_fields::width::Width;
use round_step::round::finish;

// A normal number: to another one only the exponent field moves, and nothing is rounded.
#[inline(always)]
fn normal_scaled(fmt: Format, attribute: Attribute, x: u64, n: i32) -> Flagged<u64, Raised>
    requires { Pattern (format_of fmt) x × (normal (format_of fmt) x ≡ true) }
    ensures { Scales (format_of fmt) (attribute_of attribute) x n result.value (flags_of result.flags) }
{
    let field = moved_field(fmt, x, n);
    if fmt.is_normal_field(field) {
        return Flagged {
            value: with_field(fmt, x, field),
            flags: Raised::none(),
        };
    }
    finish(fmt, attribute, fmt.is_negative(x), locate_moved(fmt, x, n))
}

#[inline(always)]
fn subnormal_scaled(fmt: Format, attribute: Attribute, x: u64, n: i32) -> Flagged<u64, Raised>
    requires { Pattern (format_of fmt) x × (field (format_of fmt) x ≡ 0) }
    ensures { Scales (format_of fmt) (attribute_of attribute) x n result.value (flags_of result.flags) }
{
    let low = locate_subnormal(fmt, x, n);
    finish(fmt, attribute, fmt.is_negative(x), low)
}

// An infinity or a NaN, under every attribute the same.
#[inline(always)]
fn special_scaled(fmt: Format, x: u64) -> Flagged<u64, Raised>
    requires { Pattern (format_of fmt) x × (normal (format_of fmt) x ≡ false) × (field (format_of fmt) x ≢ 0) }
    ensures { (a : _) (n : ℤ) → Scales (format_of fmt) a x n result.value (flags_of result.flags) }
{
    Flagged {
        value: scale_special(fmt, x),
        flags: Raised::invalid_if(fmt.is_signalling(x)),
    }
}

// Normal numbers come first.
#[inline(always)]
fn scaled(fmt: Format, attribute: Attribute, x: u64, n: i32) -> Flagged<u64, Raised>
    requires { Pattern (format_of fmt) x }
    ensures { Scales (format_of fmt) (attribute_of attribute) x n result.value (flags_of result.flags) }
{
    if fmt.is_normal(x) {
        return normal_scaled(fmt, attribute, x, n);
    }
    if fmt.exponent_field(x) == 0 {
        return subnormal_scaled(fmt, attribute, x, n);
    }
    special_scaled(fmt, x)
}

#[inline(always)]
pub fn scalbn_in<W: Width>(attribute: Attribute, x: W, n: i32) -> Flagged<W, Raised>
    ensures value { W.pattern result.value ≡ scalbn_in W.layout (attribute_of attribute) (W.pattern x) n }
    ensures flags { flags_of result.flags ≡ scalbn_flags_in W.layout (attribute_of attribute) (W.pattern x) n }
{
    scaled(W::format(), attribute, x.widen(), n).narrow()
}

// An attribute by its number, as `scalbn_rounded` of the definitions has it, and C.
pub fn scalbn_rounded<W: Width>(number: u32, x: W, n: i32) -> Result<Flagged<W, Raised>, Refusal>
    ensures { rounded_of W.pattern flags_of result ≡ scalbn_rounded W.layout number (W.pattern x) n }
{
    let attribute = Attribute::try_from(number)?;
    Ok(scalbn_in(attribute, x, n))
}
