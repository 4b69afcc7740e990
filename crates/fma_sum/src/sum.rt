// A product and a third number added, in one word or in two: one holds every intermediate in formats of few fraction bits, two in any format.
ghost use Rattle.std.specs.Prelude.{◌≡◌, false, ◌+◌, ◌-◌, ◌*◌, ◌<◌, ◌^◌, pos, ◌+ℤ◌, ◌-ℤ◌};
ghost use Rattle.std.specs.Int.Count.{count_leading_zeros};
ghost use Rattle.std.specs.Int.Signed.{mag};
ghost use Rattle.ieee.specs.Format.{low};
ghost use Rattle.ieee.specs.Fma.{product_sign};
ghost use Rattle.fmt_fields.specs.Layout.{format_of};
ghost use Rattle.fmt_decode.specs.Aside.{aside};
ghost use Rattle.fma_laws.specs.Aligned.{added_steps, added_sign, added_exp};
ghost use Rattle.fma_laws.specs.Fused.{product_sig, product_exp};
ghost use Rattle.round_laws.specs.Location.{stretched};
ghost use Rattle.round_locate.specs.Located.{Locates};
ghost use Rattle.round_wide.specs.Stuck.{stuck};
ghost use Rattle.word_wide.specs.Value.{value};

use crate::units::exponent_in_units;
use fma_align::magnitude::Magnitude;
use fma_align::product::{Scaled, multiply};
use fmt_decode::norm::{Norm, norm_of};
use fmt_fields::layout::Format;
use round_locate::locate::{Located, locate};
use round_wide::fold::{add_to_exponent, fold};
use word_wide::Wide;

// The product of two nonzero numbers, doubled.
pub fn product_of<S: Magnitude>(fmt: Format, x: u64, y: u64) -> Scaled<S>
    requires { (fmt.frac + fmt.frac + 3 < S.size) × (aside (format_of fmt) x ≡ false) × (aside (format_of fmt) y ≡ false) }
    ensures { ((S.number result.sig ≡ product_sig (format_of fmt) x y)
        × (result.exp ≡ product_exp (format_of fmt) x y)
        × (result.neg ≡ product_sign (format_of fmt) x y))
        × (S.number result.sig < 2 ^ (fmt.frac + fmt.frac + 3)) × (mag result.exp < 2 ^ 18) }
{
    multiply(norm_of(fmt, x), norm_of(fmt, y))
}

// Aligns the two to one exponent, with a sticky mark, and adds them.
#[inline(always)]
pub fn add_third<S: Magnitude>(p: Scaled<S>, q: Norm) -> Scaled<S>
    requires { (S.number p.sig + q.sig * 2 ^ S.left < 2 ^ S.size) × (mag p.exp < 2 ^ 18) × (mag q.exp < 2 ^ 18) }
    ensures { ((S.number result.sig ≡ added_steps S.left (S.number p.sig) p.exp p.neg q.sig q.exp q.neg)
        × (result.neg ≡ added_sign S.left (S.number p.sig) p.exp p.neg q.sig q.exp q.neg)
        × (result.exp ≡ added_exp S.left p.exp q.exp))
        × (mag result.exp < 2 ^ 19 + 2 ^ 18) × (S.number result.sig < 2 ^ S.size) }
{
    let a = S::align(p.sig, q.sig, p.exp, q.exp);
    let s = S::add_signed(a.product, a.third, p.neg, q.neg);
    Scaled {
        sig: s.sum,
        exp: add_to_exponent(p.exp, a.down),
        neg: s.neg,
    }
}

// A sum of two words in one, with a sticky mark.
pub fn fold_sum(s: Scaled<Wide>) -> Scaled<u64>
    requires { mag s.exp < 2 ^ 19 + 2 ^ 18 }
    ensures { ((result.sig ≡ stuck (value s.sig) (64 - count_leading_zeros 64 s.sig.hi))
        × (result.exp ≡ s.exp +ℤ pos (64 - count_leading_zeros 64 s.sig.hi))
        × (result.neg ≡ s.neg))
        × (mag result.exp < 2 ^ 19 + 2 ^ 18 + 2 ^ 7) }
{
    let f = fold(s.sig);
    Scaled {
        sig: f.sig,
        exp: add_to_exponent(s.exp, f.down),
        neg: s.neg,
    }
}

// Its lower neighbour and its location.
pub fn locate_sum(fmt: Format, s: Scaled<u64>) -> Located
    requires { mag s.exp < 2 ^ 19 + 2 ^ 18 + 2 ^ 7 }
    ensures { Locates (format_of fmt) (stretched s.sig (s.exp +ℤ pos (low (format_of fmt)) -ℤ pos 1)) result }
{
    let exp = exponent_in_units(fmt, s.exp);
    locate(fmt, s.sig, exp)
}
