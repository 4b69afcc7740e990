// The words that hold patterns: of 64 bits for binary64, and of 32 for binary32.
ghost use Rattle.std.specs.Prelude.{◌≡◌, ℕ, ◌≤◌};
ghost use Rattle.std.proofs.Common.{rules};
ghost use Rattle.ieee.specs.Format as ieee;
ghost use Rattle.ieee.specs.Format.{b64, b32};
ghost use Rattle.ieee.specs.Pattern.{Pattern};
ghost use Rattle.fmt_fields.specs.Layout.{format_of};

use crate::env::Flagged;
use crate::layout::{BINARY32, BINARY64, Format};

// A word that holds the patterns of one format, and no other number.
pub trait Width: Copy {
    ghost layout: { ieee.Format };

    ghost pattern: { Self → ℕ };

    fn format() -> Format
        ensures { format_of result ≡ layout };

    fn widen(self) -> u64
        ensures value { result ≡ pattern self }
        ensures held { Pattern layout (pattern self) };

    fn narrow(x: u64) -> Self
        requires { Pattern layout x }
        ensures { pattern result ≡ x };

    // So a marked significand of 57 bits has two bits more than the format keeps.
    ghost short_fraction: { layout.frac ≤ 55 };

    // So 1/2 is a normal number.
    ghost three_exponent_bits: { 3 ≤ layout.expo };
}

impl Width for u64 {
    ghost layout = { b64 };

    ghost pattern = { λ x. x };

    ghost short_fraction = { Prim.search rules };

    ghost three_exponent_bits = { Prim.search rules };

    fn format() -> Format {
        BINARY64
    }

    fn widen(self) -> u64 {
        self
    }

    fn narrow(x: u64) -> u64 {
        x
    }
}

impl Width for u32 {
    ghost layout = { b32 };

    ghost pattern = { λ x. x };

    ghost short_fraction = { Prim.search rules };

    ghost three_exponent_bits = { Prim.search rules };

    fn format() -> Format {
        BINARY32
    }

    fn widen(self) -> u64 {
        u64::from(self)
    }

    fn narrow(x: u64) -> u32 {
        x as u32
    }
}

impl<F: Copy> Flagged<u64, F> {
    // The same pattern in the word of its format.
    pub fn narrow<W: Width>(self) -> Flagged<W, F>
        requires { Pattern W.layout self.value }
        ensures value { W.pattern result.value ≡ self.value }
        ensures flags { result.flags ≡ self.flags }
    {
        Flagged {
            value: W::narrow(self.value),
            flags: self.flags,
        }
    }
}
