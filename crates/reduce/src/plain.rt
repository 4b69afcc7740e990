// The reduction a bit at a time. The reducer is proved equal to it.
ghost use Rattle.std.specs.Prelude.{◌≡◌};
ghost use Rattle.ieee.specs.Reduction.{reduce_of};
ghost use Rattle.fmt_fields.specs.Refused.{answer_of};
ghost use Rattle.reduce.specs.Bits.{bits_of};

use crate::words::{bits_of, reduce_by};
use fmt_fields::refusal::Refusal;
use fmt_fields::width::Width;
use reduce_stepwise::reduce_stepwise;

pub fn plain<W: Width>(x: W, e: u32, y: W) -> Result<W, Refusal>
    ensures { answer_of W.pattern result ≡ reduce_of (bits_of W.layout) (W.pattern x) e (W.pattern y) }
{
    let left = reduce_by(
        bits_of(W::format()),
        x.widen(),
        e,
        y.widen(),
        reduce_stepwise,
    )?;
    Ok(W::narrow(left))
}
