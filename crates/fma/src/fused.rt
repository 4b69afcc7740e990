// The sum of a product and a third number, by the width of the format.
ghost use Rattle.std.specs.Prelude.{◌≡◌, false, ◌+◌, ◌<◌, ◌^◌};
ghost use Rattle.std.specs.Int.Signed.{mag};
ghost use Rattle.ieee.specs.Round as ieee;
ghost use Rattle.fma_laws.specs.Fused.{rounded_sum, fma_gives};
ghost use Rattle.fma.specs.Special.{special};

use fma_align::product::Scaled;
use fma_sum::sum::{add_third, fold_sum, product_of};
use fma_sum::third::third_of;
use fmt_fields::layout::{BINARY32, BINARY64};
use fmt_fields::width::Width;
use word_wide::Wide;

// A word whose patterns can be multiplied and added.
pub trait Fused: Width {
    // Of numbers: rounded once, the sum is the answer.
    fn fused(x: u64, y: u64, z: u64) -> Scaled<u64>
        requires { special Self.layout x y z ≡ false }
        ensures sum { (a : ieee.Attribute) → rounded_sum Self.layout a result.neg result.sig result.exp ≡ fma_gives Self.layout a x y z }
        ensures small { mag result.exp < 2 ^ 19 + 2 ^ 18 + 2 ^ 7 };
}

impl Fused for u64 {
    #[inline(always)]
    fn fused(x: u64, y: u64, z: u64) -> Scaled<u64> {
        let p = product_of::<Wide>(BINARY64, x, y);
        fold_sum(add_third(p, third_of(BINARY64, z)))
    }
}

impl Fused for u32 {
    #[inline(always)]
    fn fused(x: u64, y: u64, z: u64) -> Scaled<u64> {
        let p = product_of::<u64>(BINARY32, x, y);
        add_third(p, third_of(BINARY32, z))
    }
}
