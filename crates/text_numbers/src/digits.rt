// The digits of numbers, in a base up to sixteen.
ghost use Rattle.std.specs.Prelude.{◌≡◌, ◌≤◌, ◌<◌, length, SomeIff};
ghost use Rattle.text_numbers.specs.Digits.{digit_of, glyph_of, read_on, capped, digits_of};

// The greatest number that read_decimal tells from the others.
const LIMIT: u64 = 4294967296;

fn digit(b: u8, base: u64) -> Option<u64>
    requires { base ≤ 16 }
    ensures { SomeIff result (digit_of b < base) (digit_of b) }
{
    let d = u64::from(match b {
        b'0'..=b'9' => b - b'0',
        b'a'..=b'f' => b - b'a' + 10,
        _ => return None,
    });
    if d < base { Some(d) } else { None }
}

fn glyph(d: u64) -> u8
    requires { d < 16 }
    ensures { result ≡ glyph_of d }
{
    if d < 10 {
        b'0' + d as u8
    } else {
        b'a' + (d as u8 - 10)
    }
}

// The number that all of s spells. At most sixteen digits, in a base up to sixteen, so no value wraps. The base is a number and no type of its own:
// every caller writes 10 or 16.
pub fn read_digits(s: &[u8], base: u64) -> Option<u64>
    requires base { base ≤ 16 }
    requires few { length s.now ≤ 16 }
    ensures { result ≡ read_on base 0 s.now }
{
    let mut value = 0;
    for b in s {
        value = value * base + digit(*b, base)?;
    }
    Some(value)
}

// The number that all of s spells in decimal, however long. A number above 4294967296 counts as that one.
pub fn read_decimal(s: &[u8]) -> Option<u64>
    ensures { result ≡ capped 4294967296 (read_on 10 0 s.now) }
{
    let mut value: u64 = 0;
    for b in s {
        value = (value * 10 + digit(*b, 10)?).min(LIMIT);
    }
    Some(value)
}

// Fills out with the last digits of n. By an index, since after an adapter of `iter_mut` a proof knows no element.
pub fn fill_digits(out: &mut [u8], base: u64, n: u64)
    requires least { 1 < base }
    requires most { base ≤ 16 }
    ensures { out.new ≡ digits_of base (length out.old) n }
{
    let mut rest = n;
    for i in (0..out.len()).rev() {
        out[i] = glyph(rest % base);
        rest /= base;
    }
}
