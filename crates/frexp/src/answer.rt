// frexp's answer: the pattern of the fraction, and the exponent of the power of two.
#[derive(Clone, Copy)]
pub struct Frexp<W> {
    pub fraction: W,
    pub exponent: i32,
}
