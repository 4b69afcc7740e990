// remquo: the remainder of x by the nearest whole multiple of y, and that multiple's number modulo 2^31.
ghost use Rattle.std.specs.Prelude.{◌≡◌, false};
ghost use Rattle.ieee.specs.Pattern.{Pattern};
ghost use Rattle.ieee.specs.Remquo.{remquo_of, quotient_of};
ghost use Rattle.fmt_fields.specs.Layout.{format_of};
ghost use Rattle.fmt_decode.specs.Classes.{Nonzero, Finite};
ghost use Rattle.fmt_decode.specs.Rows.{no_remainder};
ghost use Rattle.remquo.specs.Nearest.{Divides};

use crate::answer::Remquo;
use crate::division::{Division, long_divide};
use crate::lead::exponent_lead;
use crate::settle::settle;
use fmt_decode::norm::norm_of;
use fmt_decode::remainder::has_no_remainder;
use fmt_fields::layout::Format;
use fmt_fields::width::Width;

// Two nonzero numbers. With an exponent two or more below y's, x is less than half of y and is its own remainder. With one below, x is less than y: the quotient
// is 0 so far, and y's significand is doubled to the exponent of x. Otherwise the significands are divided, and the remainder has the exponent of y.
fn remquo_numbers(fmt: Format, x: u64, y: u64) -> Remquo<u64>
    requires { Pattern (format_of fmt) x
        × Nonzero (format_of fmt) x × Finite (format_of fmt) x
        × Nonzero (format_of fmt) y × Finite (format_of fmt) y }
    ensures { Divides (format_of fmt) x y result.value result.quotient }
{
    let a = norm_of(fmt, x);
    let b = norm_of(fmt, y);
    let far = exponent_lead(a, b);
    if far == 0 {
        return Remquo {
            value: x,
            quotient: 0,
        };
    }
    let differ = a.neg != b.neg;
    if far == 1 {
        let d = Division {
            rem: a.sig,
            div: b.sig * 2,
            quo: 0,
        };
        return settle(fmt, a.neg, differ, d, a.exp);
    }
    let d = long_divide(a.sig, b.sig, far - 2);
    settle(fmt, a.neg, differ, d, b.exp)
}

// A finite x, and y not a zero. With an infinite y, or a zero x, x is its own remainder.
fn remquo_finite(fmt: Format, x: u64, y: u64) -> Remquo<u64>
    requires { Pattern (format_of fmt) x × (no_remainder (format_of fmt) x y ≡ false) }
    ensures { Divides (format_of fmt) x y result.value result.quotient }
{
    if fmt.magnitude_of(y) == fmt.infinity() {
        return Remquo {
            value: x,
            quotient: 0,
        };
    }
    if fmt.magnitude_of(x) == 0 {
        return Remquo {
            value: x,
            quotient: 0,
        };
    }
    remquo_numbers(fmt, x, y)
}

// The canonical NaN where there is no remainder.
#[inline(always)]
fn remquo_pattern(fmt: Format, x: u64, y: u64) -> Remquo<u64>
    requires { Pattern (format_of fmt) x }
    ensures { Divides (format_of fmt) x y result.value result.quotient }
{
    if has_no_remainder(fmt, x, y) {
        return Remquo {
            value: fmt.nan(),
            quotient: 0,
        };
    }
    remquo_finite(fmt, x, y)
}

pub fn remquo<W: Width>(x: W, y: W) -> Remquo<W>
    ensures value { W.pattern result.value ≡ remquo_of W.layout (W.pattern x) (W.pattern y) }
    ensures quotient { result.quotient ≡ quotient_of W.layout (W.pattern x) (W.pattern y) }
{
    let r = remquo_pattern(W::format(), x.widen(), y.widen());
    Remquo {
        value: W::narrow(r.value),
        quotient: r.quotient,
    }
}
