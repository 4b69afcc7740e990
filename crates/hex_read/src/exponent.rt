// The exponent of a numeral: one to five decimal digits after a sign or none.
ghost use Rattle.std.specs.Prelude.{◌≡◌, ◌<◌, ◌^◌, IfSome};
ghost use Rattle.std.specs.Int.Signed.{mag};
ghost use Rattle.ieee.specs.Pattern.{with_sign};
ghost use Rattle.ieee_numeral_laws.specs.Reading.{few_of, exponent_of};

use text_numbers::digits::read_digits;

// The most digits of an exponent.
const MOST: usize = 5;

fn signed(neg: bool, size: u64) -> i32
    requires { size < 10 ^ 5 }
    ensures value { result ≡ with_sign neg size }
    ensures small { mag result < 10 ^ 5 }
{
    let size = size as i32;
    if neg { -size } else { size }
}

// One to five decimal digits, and nothing else.
fn read_few(neg: bool, s: &[u8]) -> Option<i32>
    ensures value { result ≡ few_of (with_sign neg) s.now }
    ensures small { IfSome result (λ e. mag e < 10 ^ 5) }
{
    if s.is_empty() || s.len() > MOST {
        return None;
    }
    Some(signed(neg, read_digits(s, 10)?))
}

// All of s. There is no jump for the sign, which cannot be foreseen.
pub fn read_exponent(s: &[u8]) -> Option<i32>
    ensures value { result ≡ exponent_of s.now }
    ensures small { IfSome result (λ e. mag e < 10 ^ 5) }
{
    let first = *s.first()?;
    let neg = first == b'-';
    read_few(neg, &s[usize::from((first == b'+') | neg)..])
}
