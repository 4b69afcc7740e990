// The operations with their flags as a record of five bools.
#![tactic(auto)]

ghost use Rattle.std.specs.Prelude.{◌≡◌};
ghost use Rattle.ieee.specs.Fma.{fma_of, fma_flags};
ghost use Rattle.ieee.specs.Scalbn.{scalbn_of, scalbn_flags};
ghost use Rattle.ieee.specs.Sqrt.{sqrt_of, sqrt_flags};
ghost use Rattle.ieee.specs.Whole.{trunc_of, trunc_flags, floor_of, floor_flags, ceil_of, ceil_flags};
ghost use Rattle.fmt_fields.specs.Raised.{flags_of};
ghost use Rattle.flagged.specs.Record.{record_of};

use fma::fused::Fused;
use fmt_fields::env::{Flagged, Raised};
use fmt_fields::weight::weigh;
use fmt_fields::width::Width;
use sqrt_number::rooted::Rooted;

pub mod rounded;

// The exceptions of IEEE 754, clause 7, raised or not.
#[derive(Clone, Copy, Debug, PartialEq, Eq)]
pub struct Flags {
    pub invalid: bool,
    pub division_by_zero: bool,
    pub overflow: bool,
    pub underflow: bool,
    pub inexact: bool,
}

impl Flags {
    ghost use Rattle.ieee.specs.Flags.{flag_word};

    // The flags as one number, as C has it.
    pub fn word(self) -> u32
        ensures { result ≡ flag_word (record_of self) }
    {
        weigh(self.invalid, 1)
            + weigh(self.division_by_zero, 4)
            + weigh(self.overflow, 8)
            + weigh(self.underflow, 16)
            + weigh(self.inexact, 32)
    }
}

impl From<Raised> for Flags {
    ghost from_gives = { λ raised flags. record_of flags ≡ flags_of raised };

    fn from(raised: Raised) -> Flags {
        let bits = raised.bits;
        Flags {
            invalid: bits % 2 == 1,
            division_by_zero: bits / 4 % 2 == 1,
            overflow: bits / 8 % 2 == 1,
            underflow: bits / 16 % 2 == 1,
            inexact: bits / 32 % 2 == 1,
        }
    }
}

// The same value, with the record of its flags.
fn recorded<W: Width>(a: Flagged<W, Raised>) -> Flagged<W, Flags>
    ensures value { result.value ≡ a.value }
    ensures flags { record_of result.flags ≡ flags_of a.flags }
{
    Flagged {
        value: a.value,
        flags: Flags::from(a.flags),
    }
}

pub fn sqrt_flags<W: Rooted>(x: W) -> Flagged<W, Flags>
    ensures value { W.pattern result.value ≡ sqrt_of W.layout (W.pattern x) }
    ensures flags { record_of result.flags ≡ sqrt_flags W.layout (W.pattern x) }
{
    recorded(sqrt::sqrt::sqrt_flags(x))
}

pub fn floor_flags<W: Width>(x: W) -> Flagged<W, Flags>
    ensures value { W.pattern result.value ≡ floor_of W.layout (W.pattern x) }
    ensures flags { record_of result.flags ≡ floor_flags W.layout (W.pattern x) }
{
    recorded(integral::floor::floor_flags(x))
}

pub fn trunc_flags<W: Width>(x: W) -> Flagged<W, Flags>
    ensures value { W.pattern result.value ≡ trunc_of W.layout (W.pattern x) }
    ensures flags { record_of result.flags ≡ trunc_flags W.layout (W.pattern x) }
{
    recorded(integral::trunc::trunc_flags(x))
}

pub fn ceil_flags<W: Width>(x: W) -> Flagged<W, Flags>
    ensures value { W.pattern result.value ≡ ceil_of W.layout (W.pattern x) }
    ensures flags { record_of result.flags ≡ ceil_flags W.layout (W.pattern x) }
{
    recorded(integral::ceil::ceil_flags(x))
}

pub fn fma_flags<W: Fused>(x: W, y: W, z: W) -> Flagged<W, Flags>
    ensures value { W.pattern result.value ≡ fma_of W.layout (W.pattern x) (W.pattern y) (W.pattern z) }
    ensures flags { record_of result.flags ≡ fma_flags W.layout (W.pattern x) (W.pattern y) (W.pattern z) }
{
    recorded(fma::fma::fma_flags(x, y, z))
}

pub fn scalbn_flags<W: Width>(x: W, n: i32) -> Flagged<W, Flags>
    ensures value { W.pattern result.value ≡ scalbn_of W.layout (W.pattern x) n }
    ensures flags { record_of result.flags ≡ scalbn_flags W.layout (W.pattern x) n }
{
    recorded(scalbn::scalbn::scalbn_flags(x, n))
}
