// Two-word numbers: products, sums, order and shifts.
#![tactic(auto)]

pub mod product;
pub mod shift;
pub mod sum;

// The number hi * 2^64 + lo. Two halves in a struct by value are a form that this project keeps (docs/DECISIONS.md), so it is no u128.
// A contract that says this value leaves one answer: `wide_unique` (proofs/Only.antt).
#[derive(Clone, Copy)]
pub struct Wide {
    pub hi: u64,
    pub lo: u64,
}

// A number of one word.
impl From<u64> for Wide {
    ghost use Rattle.std.specs.Prelude.{◌≡◌};
    ghost use Rattle.word_wide.specs.Value.{value};

    ghost from_gives = { λ x w. value w ≡ x };

    fn from(lo: u64) -> Wide {
        Wide { hi: 0, lo }
    }
}
