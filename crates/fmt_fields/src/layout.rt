// A binary interchange format by its two widths, as a value.
ghost use Rattle.fmt_fields.specs.Width.{Fits};

// The numbers of fraction bits and of exponent bits; the sign is one more bit. A pattern stands beside its format, not in one value with it, since the operands
// of an operation share one format, and values that each had their own would have to be proved alike.
#[derive(Clone, Copy)]
pub struct Format {
    pub frac: u32,
    pub expo: u32,
    ghost fits: { Fits frac expo },
}

pub const BINARY64: Format = Format { frac: 52, expo: 11 };

pub const BINARY32: Format = Format { frac: 23, expo: 8 };
