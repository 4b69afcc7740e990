// The operations under an attribute by its number, with their flags as a record of five bools.
ghost use Rattle.std.specs.Prelude.{◌≡◌};
ghost use Rattle.ieee.specs.Rounded.{sqrt_rounded, fma_rounded, scalbn_rounded};
ghost use Rattle.fmt_fields.specs.Raised.{flags_of};
ghost use Rattle.fmt_fields.specs.Numbered.{rounded_of};
ghost use Rattle.flagged.specs.Record.{record_of};

use crate::{Flags, recorded};
use fma::fused::Fused;
use fmt_fields::env::{Flagged, Raised};
use fmt_fields::refusal::Refusal;
use fmt_fields::width::Width;
use sqrt_number::rooted::Rooted;

// The same answer, with the record of its flags.
fn with_record<W: Width>(
    answer: Result<Flagged<W, Raised>, Refusal>,
) -> Result<Flagged<W, Flags>, Refusal>
    ensures { rounded_of W.pattern record_of result ≡ rounded_of W.pattern flags_of answer }
{
    Ok(recorded(answer?))
}

pub fn sqrt_rounded<W: Rooted>(attribute: u32, x: W) -> Result<Flagged<W, Flags>, Refusal>
    ensures { rounded_of W.pattern record_of result ≡ sqrt_rounded W.layout attribute (W.pattern x) }
{
    with_record(sqrt::sqrt::sqrt_rounded(attribute, x))
}

pub fn fma_rounded<W: Fused>(attribute: u32, x: W, y: W, z: W) -> Result<Flagged<W, Flags>, Refusal>
    ensures { rounded_of W.pattern record_of result ≡ fma_rounded W.layout attribute (W.pattern x) (W.pattern y) (W.pattern z) }
{
    with_record(fma::rounded::fma_rounded(attribute, x, y, z))
}

pub fn scalbn_rounded<W: Width>(attribute: u32, x: W, n: i32) -> Result<Flagged<W, Flags>, Refusal>
    ensures { rounded_of W.pattern record_of result ≡ scalbn_rounded W.layout attribute (W.pattern x) n }
{
    with_record(scalbn::rounded::scalbn_rounded(attribute, x, n))
}
