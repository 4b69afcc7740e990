// The cases of a scaled pattern that need no rounding, and the bits below the smallest unit.
ghost use Rattle.std.specs.Prelude.{◌≡◌, false, cond, ◌+◌, ◌-◌, ◌*◌, ◌/◌, ◌%◌, ◌≤◌, ◌<◌, ◌^◌, eqb};
ghost use Rattle.ieee.specs.Format.{canonical};
ghost use Rattle.ieee.specs.Pattern.{Pattern, field, fraction};
ghost use Rattle.round_laws.specs.Location.{part, high_part};
ghost use Rattle.fmt_fields.specs.Layout.{format_of};
ghost use Rattle.scalbn_laws.specs.Normal.{full_of};

use fmt_fields::layout::Format;
use round_locate::locate::Located;
use round_locate::shift_out::shift_out;
use word_bits::pow;

// An infinity unchanged; for a NaN the canonical one.
pub fn scale_special(fmt: Format, x: u64) -> u64
    requires { Pattern (format_of fmt) x }
    ensures { (result ≡ cond (eqb (fraction (format_of fmt) x) 0) x (canonical (format_of fmt))) × Pattern (format_of fmt) result }
{
    if fmt.fraction_field(x) == 0 {
        return x;
    }
    fmt.nan()
}

// x with another exponent field. From one normal number to another the fraction is unchanged.
pub fn with_field(fmt: Format, x: u64, to: u64) -> u64
    requires { Pattern (format_of fmt) x × (to < 2 ^ fmt.expo) }
    ensures { (result ≡ x - field (format_of fmt) x * 2 ^ fmt.frac + to * 2 ^ fmt.frac) × Pattern (format_of fmt) result }
{
    let unit = pow(fmt.frac);
    x - fmt.exponent_field(x) * unit + to * unit
}

// Locates a normal x after its significand was shifted right by k bits.
pub fn locate_below_unit(fmt: Format, x: u64, k: u32) -> Located
    requires { (1 ≤ k) × (k ≤ 64) }
    ensures { (result.below ≡ full_of (format_of fmt) x / 2 ^ k) × (result.location ≡ part (full_of (format_of fmt) x % 2 ^ k) (2 ^ k))
        × (result.high ≡ high_part (full_of (format_of fmt) x % 2 ^ k) (2 ^ k)) × (result.beyond ≡ false) × (result.inside ≡ false) }
{
    let c = shift_out(pow(fmt.frac) + fmt.fraction_field(x), k);
    Located {
        below: c.kept,
        location: c.location,
        high: c.high,
        beyond: false,
        inside: false,
    }
}
