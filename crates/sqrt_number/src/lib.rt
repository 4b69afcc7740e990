// The root of a positive number: the exponent halved, the root of the significand, and the rounding.
#![tactic(auto)]

ghost use Rattle.std.specs.Prelude.{◌≡◌, false, ◌*◌, ◌<◌, ◌^◌};
ghost use Rattle.ieee.specs.Pattern.{field};
ghost use Rattle.ieee.specs.Round.{answer, ties_to_even, way_of};
ghost use Rattle.ieee.specs.Scalbn.{scaled};
ghost use Rattle.ieee.specs.Sqrt.{sqrt_of};
ghost use Rattle.fmt_fields.specs.Layout.{format_of};
ghost use Rattle.fmt_fields.specs.Raised.{attribute_of, flags_of};
ghost use Rattle.sqrt_number.specs.Split.{half_of, marked_by, Above, Ready, RaisedRoot};

use crate::near::round_near;
use crate::rooted::Rooted;
use crate::split::Split;
use fmt_decode::norm::{norm_of, unpack_normal};
use fmt_fields::attribute::Attribute;
use fmt_fields::env::{Flagged, Raised};
use fmt_fields::layout::Format;
use round_step::round::round;
use sqrt_digits::{RootFloor, floor_root};
use sqrt_table::reciprocal::reciprocal;
use sqrt_table::root::Radicand;

pub mod flags;
pub mod near;
pub mod rooted;
mod split;

// The exponent of the marked root.
fn halve_exponent(up: u32) -> i32
    requires { up < 2 ^ 20 }
    ensures { result ≡ half_of up }
{
    (up / 2) as i32 - 4
}

// A root with a last bit that is set where the root is not exact.
fn mark_inexact(whole: RootFloor) -> u64
    requires { whole.root < 2 ^ 63 }
    ensures { result ≡ marked_by whole.root whole.exact }
{
    if whole.exact {
        whole.root * 2
    } else {
        whole.root * 2 + 1
    }
}

// Combines a root with the halved exponent, and rounds. For any format.
fn round_root(fmt: Format, whole: RootFloor, up: u32) -> u64
    requires { (whole.root < 2 ^ 60) × (up < 2 ^ 20) }
    ensures { result ≡ answer (format_of fmt) ties_to_even false (scaled false (marked_by whole.root whole.exact) (half_of up)) }
{
    let marked = mark_inexact(whole);
    round(fmt, Attribute::Even, false, marked, halve_exponent(up)).value
}

// The root of a finite positive number of any format, by digits. The number is a plain word, and `Above` stands in each contract: a struct with that fact would hold
// the format too, and each caller would owe that this is the format of its word.
pub fn sqrt_by_digits(fmt: Format, x: u64) -> u64
    requires { Above (format_of fmt) x }
    ensures { result ≡ sqrt_of (format_of fmt) x }
{
    let parts = Split::of(fmt, norm_of(fmt, x));
    let whole = floor_root(parts.word(fmt.frac), fmt.frac + 2);
    round_root(fmt, whole, parts.up)
}

// The root of a significand with a lifted exponent, by the table, whose entry is asked for first, since all else waits for it.
// The contract leaves one answer: `rounded_unique` and `raised_unique` (proofs/Only.antt).
#[inline(always)]
fn by_table<W: Rooted>(attribute: Attribute, parts: Split) -> Flagged<W, Raised>
    requires { Ready W.layout parts.sig parts.up }
    ensures { RaisedRoot (way_of (attribute_of attribute) false) W.layout.frac parts.sig parts.up (W.pattern result.value) (flags_of result.flags) }
{
    let fmt = W::format();
    let guess = reciprocal(parts.step(fmt.frac));
    let word = parts.word(fmt.frac);
    let near = W::near_root(Radicand { word, guess });
    round_near(fmt, attribute, near, parts.up).narrow()
}

// The root of a finite positive number, by the table.
#[inline(always)]
pub fn sqrt_number<W: Rooted>(x: u64) -> W
    requires { Above W.layout x }
    ensures { W.pattern result ≡ sqrt_of W.layout x }
{
    let fmt = W::format();
    let parts = Split::of(fmt, norm_of(fmt, x));
    by_table::<W>(Attribute::Even, parts).value
}

// The root of a normal positive number, by the table. There are no leading zeros to count.
#[inline(always)]
pub fn sqrt_normal<W: Rooted>(x: u64) -> W
    requires { Above W.layout x × (0 < field W.layout x) }
    ensures { W.pattern result ≡ sqrt_of W.layout x }
{
    let fmt = W::format();
    let normal = Split::of(fmt, unpack_normal(fmt, x));
    by_table::<W>(Attribute::Even, normal).value
}
