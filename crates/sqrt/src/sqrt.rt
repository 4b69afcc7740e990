// sqrt: the square root, rounded once.
ghost use Rattle.std.specs.Prelude.{◌≡◌, true};
ghost use Rattle.ieee.specs.Pattern.{Pattern};
ghost use Rattle.ieee.specs.Sqrt.{sqrt_in, sqrt_of, sqrt_flags_in, sqrt_flags};
ghost use Rattle.ieee.specs.Rounded.{sqrt_rounded};
ghost use Rattle.fmt_fields.specs.Layout.{format_of};
ghost use Rattle.fmt_fields.specs.Raised.{attribute_of, flags_of};
ghost use Rattle.fmt_fields.specs.Numbered.{rounded_of};
ghost use Rattle.sqrt.specs.Classes.{rootless, set_aside, AlwaysRoot, AlwaysFlags};

use fmt_fields::attribute::Attribute;
use fmt_fields::env::{Flagged, Raised};
use fmt_fields::layout::Format;
use fmt_fields::refusal::Refusal;
use fmt_fields::width::Width;
use sqrt_number::flags::sqrt_number_in;
use sqrt_number::rooted::Rooted;
use sqrt_number::{sqrt_by_digits, sqrt_normal, sqrt_number};
use word_bits::pow;

// Whether x is a zero, subnormal, infinite, a NaN or negative. All other patterns lie from the smallest normal number up to infinity. With the smallest
// subtracted, those below it wrap to words past infinity, where the NaNs and the negative operands are.
fn set_aside(fmt: Format, x: u64) -> bool
    ensures { result ≡ set_aside (format_of fmt) x }
{
    let least = pow(fmt.frac);
    let inf = fmt.infinity();
    x.wrapping_sub(least) >= inf - least
}

// Whether no root is computed: the same without the subnormal numbers, by the pattern less one.
fn has_no_root(fmt: Format, x: u64) -> bool
    ensures { result ≡ rootless (format_of fmt) x }
{
    let inf = fmt.infinity();
    x.wrapping_sub(1) >= inf - 1
}

// The answer for each of those, under every attribute: zeros and +infinity are their own roots, the others are NaNs or negative.
fn sqrt_special(fmt: Format, x: u64) -> u64
    requires { Pattern (format_of fmt) x × (rootless (format_of fmt) x ≡ true) }
    ensures { AlwaysRoot (format_of fmt) x result }
{
    let top = pow(fmt.frac + fmt.expo);
    let inf = fmt.infinity();
    if x % top == 0 {
        return x;
    }
    if x == inf {
        return x;
    }
    fmt.nan()
}

// The root of any pattern of any format, by digits.
pub fn sqrt_pattern(fmt: Format, x: u64) -> u64
    requires { Pattern (format_of fmt) x }
    ensures { (result ≡ sqrt_of (format_of fmt) x) × Pattern (format_of fmt) result }
{
    if has_no_root(fmt, x) {
        return sqrt_special(fmt, x);
    }
    sqrt_by_digits(fmt, x)
}

// The flags where no root is computed: invalid for signalling NaNs, and for what is below zero: the patterns past -0 that are no NaNs.
fn special_flags(fmt: Format, x: u64) -> Raised
    requires { Pattern (format_of fmt) x × (rootless (format_of fmt) x ≡ true) }
    ensures { AlwaysFlags (format_of fmt) x (flags_of result) }
{
    if fmt.magnitude_of(x) > fmt.infinity() {
        return Raised::invalid_if(fmt.is_signalling(x));
    }
    Raised::invalid_if(x > pow(fmt.frac + fmt.expo))
}

// The answer where no root is computed, with its flags, under every attribute.
fn special<W: Width>(x: W) -> Flagged<W, Raised>
    requires { rootless W.layout (W.pattern x) ≡ true }
    ensures value { AlwaysRoot W.layout (W.pattern x) (W.pattern result.value) }
    ensures flags { AlwaysFlags W.layout (W.pattern x) (flags_of result.flags) }
{
    let fmt = W::format();
    let pattern = x.widen();
    Flagged {
        value: W::narrow(sqrt_special(fmt, pattern)),
        flags: special_flags(fmt, pattern),
    }
}

// The operands set aside: by the table where they have a root.
fn sqrt_aside<W: Rooted>(x: W) -> W
    ensures { W.pattern result ≡ sqrt_of W.layout (W.pattern x) }
{
    let pattern = x.widen();
    if has_no_root(W::format(), pattern) {
        return special(x).value;
    }
    sqrt_number(pattern)
}

// Not by way of the flags: one comparison suffices for most operands.
#[inline(always)]
pub fn sqrt<W: Rooted>(x: W) -> W
    ensures { W.pattern result ≡ sqrt_of W.layout (W.pattern x) }
{
    let pattern = x.widen();
    if set_aside(W::format(), pattern) {
        return sqrt_aside(x);
    }
    sqrt_normal(pattern)
}

// Under an attribute.
#[inline(always)]
pub fn sqrt_in<W: Rooted>(attribute: Attribute, x: W) -> Flagged<W, Raised>
    ensures value { W.pattern result.value ≡ sqrt_in W.layout (attribute_of attribute) (W.pattern x) }
    ensures flags { flags_of result.flags ≡ sqrt_flags_in W.layout (attribute_of attribute) (W.pattern x) }
{
    let pattern = x.widen();
    if has_no_root(W::format(), pattern) {
        return special(x);
    }
    sqrt_number_in(attribute, pattern)
}

#[inline(always)]
pub fn sqrt_flags<W: Rooted>(x: W) -> Flagged<W, Raised>
    ensures value { W.pattern result.value ≡ sqrt_of W.layout (W.pattern x) }
    ensures flags { flags_of result.flags ≡ sqrt_flags W.layout (W.pattern x) }
{
    sqrt_in(Attribute::Even, x)
}

// Under the attribute of a number, as `sqrt_rounded` of the definitions has it, and C.
pub fn sqrt_rounded<W: Rooted>(number: u32, x: W) -> Result<Flagged<W, Raised>, Refusal>
    ensures { rounded_of W.pattern flags_of result ≡ sqrt_rounded W.layout number (W.pattern x) }
{
    let attribute = Attribute::try_from(number)?;
    Ok(sqrt_in(attribute, x))
}
