// remquo's answer: the pattern of the remainder, and the magnitude of the quotient modulo 2^31 with its sign.
#[derive(Clone, Copy)]
pub struct Remquo<W> {
    pub value: W,
    pub quotient: i32,
}
