// The hex reader: a text of at most 64 bytes as a pattern, rounded once, or a refusal.
ghost use Rattle.std.specs.Prelude.{◌≡◌, ◌≤◌, ℕ, IfOk};
ghost use Rattle.ieee.specs.Pattern.{Pattern};
ghost use Rattle.ieee_numeral_laws.specs.Read.{read_in, read_of, read_rounded};
ghost use Rattle.fmt_fields.specs.Layout.{format_of};
ghost use Rattle.fmt_fields.specs.Raised.{attribute_of};
ghost use Rattle.fmt_fields.specs.Refused.{answer_of};

use crate::numeral::read_numeral;
use fmt_fields::attribute::Attribute;
use fmt_fields::layout::Format;
use fmt_fields::refusal::Refusal;
use fmt_fields::width::Width;

// The most bytes of a text.
const LIMIT: usize = 64;

fn read_in(fmt: Format, attribute: Attribute, text: &[u8]) -> Result<u64, Refusal>
    requires { fmt.frac ≤ 55 }
    ensures value { answer_of (λ (x : ℕ). x) result ≡ read_in (format_of fmt) (attribute_of attribute) text.now }
    ensures held { IfOk result (λ x. Pattern (format_of fmt) x) }
{
    if text.len() > LIMIT {
        return Err(Refusal::TextTooLong);
    }
    read_numeral(fmt, attribute, text).ok_or(Refusal::NoNumeral)
}

// To the nearest, ties to even.
pub fn read_hex<W: Width>(text: &[u8]) -> Result<W, Refusal>
    ensures { answer_of W.pattern result ≡ read_of W.layout text.now }
{
    Ok(W::narrow(read_in(W::format(), Attribute::Even, text)?))
}

// Under the attribute of a number, as `read_rounded` of the definitions has it, and C.
pub fn read_hex_rounded<W: Width>(number: u32, text: &[u8]) -> Result<W, Refusal>
    ensures { answer_of W.pattern result ≡ read_rounded W.layout number text.now }
{
    let attribute = Attribute::try_from(number)?;
    Ok(W::narrow(read_in(W::format(), attribute, text)?))
}
