// The digits that a word keeps, and a sticky mark for the others.
ghost use Rattle.std.specs.Prelude.{◌<◌, ◌^◌};

// The first digits, how many others follow them, and whether one of those is not zero.
#[derive(Clone, Copy)]
pub struct Lead {
    pub sig: u64,
    pub extra: u32,
    pub sticky: bool,
    ghost room: { sig < 2 ^ 60 },
}

impl Lead {
    ghost use Rattle.std.specs.Prelude.{◌≡◌, ℕ, ◌+◌, ◌*◌, ◌≤◌};
    ghost use Rattle.hex_read.specs.Scanned.{Holds};
    ghost use Rattle.hex_read.specs.Found.{marked};

    // No digit.
    pub fn none() -> Lead
        ensures held { Holds 0 result }
        ensures extra { result.extra ≡ 0 }
    {
        Lead {
            sig: 0,
            extra: 0,
            sticky: false,
        }
    }

    // One digit more. Zeros at the front fall away, since they leave the word at zero.
    pub fn with_digit(self, d: u64) -> Lead
        requires digit { d < 16 }
        requires extra { self.extra < 64 }
        ensures held { (v : ℕ) → Holds v self → Holds (v * 16 + d) result }
        ensures extra { result.extra ≤ self.extra + 1 }
    {
        if self.sig < 0x100000000000000 {
            return Lead {
                sig: self.sig * 16 + d,
                extra: self.extra,
                sticky: self.sticky,
            };
        }
        Lead {
            sig: self.sig,
            extra: self.extra + 1,
            sticky: self.sticky | (d > 0),
        }
    }

    // The significand with the mark as its last bit.
    pub fn marked(self) -> u64
        ensures { result ≡ marked self.sig self.sticky }
    {
        2 * self.sig + u64::from(self.sticky)
    }
}
