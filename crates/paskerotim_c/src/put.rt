// Answers, put where C asks for them: the number of a refusal, 0 where there is none, and the value and the word of flags, 0 where there are none.
ghost use Rattle.std.specs.Prelude.{◌≡◌, ◌<◌, ◌^◌};
ghost use Rattle.ieee.specs.Flags.{flag_word};
ghost use Rattle.ieee.specs.Refusal.{number_of, value_of};
ghost use Rattle.fmt_fields.specs.Numbered.{rounded_of};
ghost use Rattle.fmt_fields.specs.Raised.{flags_of};
ghost use Rattle.fmt_fields.specs.Refused.{answer_of};

use fmt_fields::env::{Flagged, Raised};
use fmt_fields::refusal::Refusal;
use fmt_fields::width::Width;

#[inline(always)]
pub fn put_flagged<W: Width>(a: Flagged<W, Raised>, flags: &mut u32) -> W
    ensures value { result ≡ a.value }
    ensures flags { flags.new ≡ flag_word (flags_of a.flags) }
{
    *flags = a.flags.word();
    a.value
}

// Zero, where there is no value.
#[inline(always)]
fn put_zero<W: Width>(value: &mut W)
    ensures { W.pattern value.new ≡ 0 }
{
    *value = W::narrow(0);
}

#[inline(always)]
pub fn put_rounded<W: Width>(
    answer: Result<Flagged<W, Raised>, Refusal>,
    value: &mut W,
    flags: &mut u32,
) -> u32
    ensures number { result ≡ (rounded_of W.pattern flags_of answer).number }
    ensures value { W.pattern value.new ≡ (rounded_of W.pattern flags_of answer).value }
    ensures flags { flags.new ≡ flag_word (rounded_of W.pattern flags_of answer).flags }
{
    match answer {
        Ok(a) => {
            *value = put_flagged(a, flags);
            0
        }
        Err(refusal) => {
            put_zero(value);
            *flags = 0;
            refusal.number()
        }
    }
}

#[inline(always)]
pub fn put_answer<W: Width>(answer: Result<W, Refusal>, value: &mut W) -> u32
    ensures number { result ≡ number_of (answer_of W.pattern answer) }
    ensures value { W.pattern value.new ≡ value_of (answer_of W.pattern answer) }
{
    match answer {
        Ok(x) => {
            *value = x;
            0
        }
        Err(refusal) => {
            put_zero(value);
            refusal.number()
        }
    }
}

// The number alone, where there is no value.
#[inline(always)]
pub fn number_of_done(answer: Result<(), Refusal>) -> u32
    ensures { result ≡ number_of (answer_of (λ done. 0) answer) }
{
    match answer {
        Ok(()) => 0,
        Err(refusal) => refusal.number(),
    }
}

#[inline(always)]
pub fn put_length(answer: Result<usize, Refusal>, length: &mut u32) -> u32
    requires { value_of (answer_of (λ n. n) answer) < 2 ^ 32 }
    ensures number { result ≡ number_of (answer_of (λ n. n) answer) }
    ensures value { length.new ≡ value_of (answer_of (λ n. n) answer) }
{
    match answer {
        Ok(n) => {
            *length = n as u32;
            0
        }
        Err(refusal) => {
            *length = 0;
            refusal.number()
        }
    }
}
