// Finds the parts of a line.
ghost use Rattle.std.specs.Prelude.{◌≡◌, [], ◌∷◌, ◌≤◌, length, position, ◌==◌};
ghost use Rattle.text_lines.specs.Offsets.{offset_of, arrow, part_of, blank_too_many};

// The first offset from `from` on where s has the byte b, or the length of s, as `offset_of` (specs/Offsets.antt) has it: a part of s ends there in either case.
pub fn find(s: &[u8], from: usize, b: u8) -> usize
    ensures value { result ≡ offset_of (b ∷ []) s.now from }
    ensures within { result ≤ length s.now }
{
    match offset_in(part(s, from, s.len()), b) {
        Some(n) => from + n,
        None => s.len(),
    }
}

fn offset_in(s: &[u8], b: u8) -> Option<usize>
    ensures { result ≡ position (λ c. c == b) s.now }
{
    s.iter().position(|c| *c == b)
}

// The offset of the first ` -> ` in s, or the length of s, as `offset_of` has it.
pub fn find_arrow(s: &[u8]) -> usize
    ensures value { result ≡ offset_of arrow s.now 0 }
    ensures within { result ≤ length s.now }
{
    for i in 0..s.len() {
        if s[i..].starts_with(b" -> ") {
            return i;
        }
    }
    s.len()
}

// The bytes of s from the offset a up to the offset e; empty where there are none.
#[tactic(auto, unfolding(crate::specs::Offsets::part_of))]
pub fn part(s: &[u8], a: usize, e: usize) -> &[u8]
    ensures { result.now ≡ part_of s.now a e }
{
    s.get(a..e).unwrap_or(&[])
}

// Whether s has a blank at either end or beside another one.
pub fn has_blank_too_many(s: &[u8]) -> bool
    ensures { result ≡ blank_too_many s.now }
{
    let mut after_blank = true;
    for c in s {
        let is_blank = *c == b' ';
        if is_blank && after_blank {
            return true;
        }
        after_blank = is_blank;
    }
    !s.is_empty() && after_blank
}
