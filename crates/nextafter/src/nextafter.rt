// nextafter: the next number from x toward y, and y itself where the two are equal.
ghost use Rattle.std.specs.Prelude.{◌≡◌, ◌<◌};
ghost use Rattle.ieee.specs.Pattern.{Pattern, minus, magnitude, signed};
ghost use Rattle.ieee.specs.Nextafter.{nextafter_of};
ghost use Rattle.ieee.specs.NextafterRule.{Ordered};
ghost use Rattle.fmt_fields.specs.Layout.{format_of};
ghost use Rattle.nextafter.specs.NextPattern.{outward, next_pattern};

use fmt_fields::layout::Format;
use fmt_fields::width::Width;

// The least number above zero, with the sign of y.
fn least_number(fmt: Format, y: u64) -> u64
    ensures { result ≡ signed (format_of fmt) (minus (format_of fmt) y) 1 }
{
    fmt.with_sign(fmt.is_negative(y), 1)
}

// Whether y lies away from zero, seen from x. Both tests are made, so that no jump is needed.
fn is_outward(fmt: Format, x: u64, y: u64) -> bool
    ensures { result ≡ outward (format_of fmt) x y }
{
    let alike = fmt.is_negative(x) == fmt.is_negative(y);
    alike & (fmt.magnitude_of(x) < fmt.magnitude_of(y))
}

// The pattern next to x, which is no zero, toward y: within a sign patterns follow each other as their numbers do.
fn next_pattern(fmt: Format, x: u64, y: u64) -> u64
    requires held { Pattern (format_of fmt) x }
    requires some { 0 < magnitude (format_of fmt) x }
    ensures { result ≡ next_pattern (format_of fmt) x y }
{
    if is_outward(fmt, x, y) {
        return x + 1;
    }
    x - 1
}

// Where neither is a NaN. Next to a zero is the least number, with the sign of y; the two zeros are equal.
fn next_number(fmt: Format, x: u64, y: u64) -> u64
    requires from { Ordered (format_of fmt) x }
    requires toward { Ordered (format_of fmt) y }
    ensures { result ≡ nextafter_of (format_of fmt) x y }
{
    if x == y {
        return y;
    }
    if fmt.magnitude_of(x) > 0 {
        return next_pattern(fmt, x, y);
    }
    let size = fmt.magnitude_of(y);
    if size > 0 {
        return least_number(fmt, y);
    }
    y
}

// A NaN, whichever operand it is, gives the canonical one.
fn nextafter_pattern(fmt: Format, x: u64, y: u64) -> u64
    requires from { Pattern (format_of fmt) x }
    requires toward { Pattern (format_of fmt) y }
    ensures value { result ≡ nextafter_of (format_of fmt) x y }
    ensures held { Pattern (format_of fmt) result }
{
    let inf = fmt.infinity();
    if fmt.magnitude_of(x) > inf {
        return fmt.nan();
    }
    if fmt.magnitude_of(y) > inf {
        return fmt.nan();
    }
    next_number(fmt, x, y)
}

pub fn nextafter<W: Width>(x: W, y: W) -> W
    ensures { W.pattern result ≡ nextafter_of W.layout (W.pattern x) (W.pattern y) }
{
    W::narrow(nextafter_pattern(W::format(), x.widen(), y.widen()))
}
