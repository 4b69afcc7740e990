// The reducer on words of 64 bits: the remainder of x times 2^k by n, for k below 64, with two products and no division.
ghost use Rattle.word_wide.specs.Value.{value};
ghost use Rattle.reduce_laws.specs.Reducer.{Reduces};

use word_bits::low_bits;
use word_division::digit::Divided;
use word_wide::Wide;
use word_wide::product::{mul, mul_hi, mul_lo};
use word_wide::shift::shl;

// For the divisor n: m is 2n, and with R = 2^64 and RR/2 = qm + r the remainder x is kept as 2xq. Only `new` needs q itself.
#[derive(Clone, Copy)]
pub struct Reducer {
    pub m: u64,
    pub r: u64,
    pub product: Wide,
    ghost reduces: { Reduces 64 m r (value product) },
}

// The state after a step, and the quotient of the step.
#[derive(Clone, Copy)]
pub struct Step {
    pub state: Reducer,
    pub quotient: u64,
}

// The contracts leave one state, `holds_only`, and one quotient, `stepped_only` (crates/reduce_laws/proofs/Only.antt).
impl Reducer {
    ghost use Rattle.std.specs.Prelude.{◌≡◌, ◌+◌, ◌*◌, ◌<◌, ◌^◌};
    ghost use Rattle.reduce_modular.specs.Held.{Starts, Holds, held, Stepped};

    // q has one bit more than a word. d, the division with which a reducer for n starts, gives its other bits, f = q - R, and r.
    pub fn new(x: u64, n: u64, d: Divided) -> Reducer
        requires { (2 ^ 61 < n) × (n < 2 ^ 62) × (x < 2 * n) × Starts n d }
        ensures { Holds n x result }
    {
        let twice = 2 * x;
        Reducer {
            m: 2 * n,
            r: d.remainder,
            product: Wide {
                hi: twice + mul_hi(twice, d.quotient),
                lo: mul_lo(twice, d.quotient),
            },
        }
    }

    // The remainder so far, below 2n. With u the upper word, m(u + 2) is xR plus something below R.
    pub fn partial_remainder(self) -> u64
        ensures { result ≡ held self }
    {
        mul_hi(self.m, self.product.hi + 2)
    }

    // The remainder times 2^k, less the quotient times n. 2xq 2^k by RR/2 gives the quotient a; each RR/2 leaves r.
    pub fn shift_reduce(self, k: u32) -> Step
        requires { k < 64 }
        ensures { Stepped k self result.quotient result.state }
    {
        let a = self.product.hi >> (63 - k);
        let b = shl(
            Wide {
                hi: low_bits(self.product.hi, 63 - k),
                lo: self.product.lo,
            },
            k,
        );
        Step {
            state: Reducer {
                m: self.m,
                r: self.r,
                product: mul(a, self.r) + b,
            },
            quotient: a,
        }
    }

    // The same for k = 63: the quotient is the upper word, and the part below RR/2 is half the lower word, which is even.
    pub fn word_reduce(self) -> Step
        ensures { Stepped 63 self result.quotient result.state }
    {
        let u = self.product.hi;
        Step {
            state: Reducer {
                m: self.m,
                r: self.r,
                product: Wide {
                    hi: mul_hi(u, self.r) + self.product.lo / 2,
                    lo: mul_lo(u, self.r),
                },
            },
            quotient: u,
        }
    }
}
