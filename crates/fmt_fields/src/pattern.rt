// Infinity, the canonical NaN, and the magnitude of a pattern.
use crate::layout::Format;
use word_bits::pow;

impl Format {
    ghost use Rattle.std.specs.Prelude.{◌≡◌};
    ghost use Rattle.ieee.specs.Format.{inf, canonical};
    ghost use Rattle.ieee.specs.Pattern.{magnitude};
    ghost use Rattle.ieee.specs.Flags.{signals};
    ghost use Rattle.fmt_fields.specs.Layout.{format_of};

    // The pattern of infinity.
    pub fn infinity(self) -> u64
        ensures { result ≡ inf (format_of self) }
    {
        pow(self.frac + self.expo) - pow(self.frac)
    }

    // The canonical NaN.
    pub fn nan(self) -> u64
        ensures { result ≡ canonical (format_of self) }
    {
        self.infinity() + pow(self.frac - 1)
    }

    // A pattern without its sign.
    pub fn magnitude_of(self, x: u64) -> u64
        ensures { result ≡ magnitude (format_of self) x }
    {
        x % pow(self.frac + self.expo)
    }

    // Whether x is a signalling NaN. They lie between infinity and the canonical NaN: with the first of them subtracted, whatever is below wraps past all others.
    pub fn is_signalling(self, x: u64) -> bool
        ensures { result ≡ signals (format_of self) x }
    {
        let first = self.infinity() + 1;
        let quiet = self.nan();
        self.magnitude_of(x).wrapping_sub(first) < quiet - first
    }
}
