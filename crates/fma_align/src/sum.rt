// The signed sum of two magnitudes, and of magnitudes of one word without a jump: signs cannot be foreseen.
ghost use Rattle.std.specs.Prelude.{◌≡◌, ◌+◌, ◌-◌, ◌<◌, ◌^◌};
ghost use Rattle.fma_laws.specs.Aligned.{joined, joined_sign};

// A magnitude with its sign.
#[derive(Clone, Copy)]
pub struct SignedSum<S> {
    pub sum: S,
    pub neg: bool,
}

// The sum of two magnitudes, of unlike signs or not. Both are made, and the choice needs no jump.
pub fn join(unlike: bool, a: u64, b: u64) -> u64
    requires { a + b < 2 ^ 64 }
    ensures { result ≡ joined unlike a b }
{
    let sum = a + b;
    let gap = a.abs_diff(b);
    if unlike { gap } else { sum }
}

// The sign of the larger.
pub fn sign_of_larger(a: u64, b: u64, s: bool, t: bool) -> bool
    ensures { result ≡ joined_sign s t a b }
{
    if a < b { t } else { s }
}
