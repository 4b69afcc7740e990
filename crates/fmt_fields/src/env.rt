// What an operation raises beside its value, by value.
use crate::weight::weigh;

// The exceptions of IEEE 754, clause 7, that were raised, by libm's bits: in a word the compiler moves them as one.
#[derive(Clone, Copy)]
pub struct Raised {
    pub bits: u32,
}

// A pattern with the flags that it came with: W is the word that holds it, or u64, and F how the flags are kept.
#[derive(Clone, Copy)]
pub struct Flagged<W, F> {
    pub value: W,
    pub flags: F,
}

impl Raised {
    ghost use Rattle.std.specs.Prelude.{◌≡◌};
    ghost use Rattle.ieee.specs.Flags.{none, only_inexact, nan_flags, judged, flag_word};
    ghost use Rattle.fmt_fields.specs.Raised.{flags_of};

    // No flag.
    pub fn none() -> Raised
        ensures { flags_of result ≡ none }
    {
        Raised { bits: 0 }
    }

    // Invalid or nothing.
    pub fn invalid_if(b: bool) -> Raised
        ensures { flags_of result ≡ nan_flags b }
    {
        Raised { bits: weigh(b, 1) }
    }

    // Inexact or nothing.
    pub fn inexact_if(b: bool) -> Raised
        ensures { flags_of result ≡ only_inexact b }
    {
        Raised { bits: weigh(b, 32) }
    }

    // The flags of a value rounded once: underflow is raised where it is tiny and also inexact.
    pub fn judge(over: bool, tiny: bool, inexact: bool) -> Raised
        ensures { flags_of result ≡ judged over tiny inexact }
    {
        let above = weigh(over, 8);
        let below = weigh(tiny & inexact, 16);
        let rounded = weigh(inexact, 32);
        Raised {
            bits: above + below + rounded,
        }
    }

    // The flags as one number. No other bit is looked at.
    pub fn word(self) -> u32
        ensures { result ≡ flag_word (flags_of self) }
    {
        self.bits % 2 + self.bits / 4 % 16 * 4
    }
}
