// The writer: the text of a pattern, put into a room or refused.
ghost use Rattle.std.specs.Prelude.{◌≡◌, [], ℕ, ◌≤◌, ◌<◌, length};
ghost use Rattle.text_numbers.specs.Digits.{digits_of};
ghost use Rattle.ieee_numeral_laws.specs.Write.{sign_text, after_point, write_of};
ghost use Rattle.fmt_fields.specs.Layout.{format_of};
ghost use Rattle.fmt_fields.specs.Refused.{answer_of};
ghost use Rattle.hex_write.specs.Parts.{parts_text, aside_text};
ghost use Rattle.hex_write.specs.Wrote.{putting, Wrote};

use crate::parts::{Exponent, Fraction, exponent_part, fraction_part};
use crate::put::{put_exponent, put_fraction, put_head, put_sign};
use fmt_fields::layout::Format;
use fmt_fields::refusal::Refusal;
use fmt_fields::width::Width;
use word_bits::pow;

// A text as it stands: one of the words for infinities and NaNs.
fn write_text(text: &[u8], out: &mut [u8]) -> Result<usize, Refusal>
    ensures { Wrote (putting text.now out.old) out.new result }
{
    if out.len() < text.len() {
        return Err(Refusal::NoRoom);
    }
    out[..text.len()].copy_from_slice(text);
    Ok(text.len())
}

// An infinity or a NaN, whose sign is not written.
fn write_aside(neg: bool, fraction: u64, out: &mut [u8]) -> Result<usize, Refusal>
    ensures { Wrote (putting (aside_text neg fraction) out.old) out.new result }
{
    if fraction > 0 {
        return write_text(b"nan", out);
    }
    if neg {
        return write_text(b"-inf", out);
    }
    write_text(b"inf", out)
}

// The bytes of a sign.
fn sign_size(neg: bool) -> usize
    ensures size { result ≡ length (sign_text neg []) }
    ensures few { result ≤ 1 }
{
    usize::from(neg)
}

// The bytes of a point and the digits behind it.
fn behind_size(count: usize) -> usize
    requires { count ≤ 16 }
    ensures size { (n : ℕ) → result ≡ length (after_point (digits_of 16 count n)) }
    ensures few { result ≤ 17 }
{
    if count == 0 { 0 } else { count + 1 }
}

// A number by its parts. Its length is known before, so that nothing is written where it does not fit.
fn write_number(
    neg: bool,
    lead: u64,
    f: Fraction,
    e: Exponent,
    out: &mut [u8],
) -> Result<usize, Refusal>
    requires lead { lead < 2 }
    requires digits { f.count ≤ 16 }
    requires exponent { e.count ≤ 5 }
    ensures { Wrote (putting (parts_text neg lead f.count f.digits e.below e.count e.size) out.old) out.new result }
{
    let length = sign_size(neg) + 3 + behind_size(f.count) + 2 + e.count;
    if out.len() < length {
        Err(Refusal::NoRoom)
    } else {
        let head = put_sign(out, neg);
        let behind = put_head(out, head, lead);
        let tail = put_fraction(out, behind, f);
        Ok(put_exponent(out, tail, e))
    }
}

// By the fields: the last exponent field is that of infinities and NaNs, and a subnormal number has no leading 1 and the exponent of the field 1.
fn write_pattern(fmt: Format, x: u64, out: &mut [u8]) -> Result<usize, Refusal>
    ensures { Wrote (write_of (format_of fmt) x out.old) out.new result }
{
    let neg = fmt.is_negative(x);
    let field = fmt.exponent_field(x);
    let t = fmt.fraction_field(x);
    if field == pow(fmt.expo) - 1 {
        return write_aside(neg, t, out);
    }
    if field > 0 {
        return write_number(
            neg,
            1,
            fraction_part(fmt, t),
            exponent_part(fmt.expo, field),
            out,
        );
    }
    if t > 0 {
        return write_number(
            neg,
            0,
            fraction_part(fmt, t),
            exponent_part(fmt.expo, 1),
            out,
        );
    }
    let f = Fraction {
        digits: 0,
        count: 0,
    };
    let e = Exponent {
        below: false,
        size: 0,
        count: 1,
    };
    write_number(neg, 0, f, e, out)
}

// The length of the text, which stands at the front of out; where it does not fit, out stays as it is.
pub fn write_hex<W: Width>(x: W, out: &mut [u8]) -> Result<usize, Refusal>
    ensures answer { answer_of (λ (n : ℕ). n) result ≡ (write_of W.layout (W.pattern x) out.old).answer }
    ensures output { out.new ≡ (write_of W.layout (W.pattern x) out.old).output }
{
    write_pattern(W::format(), x.widen(), out)
}
