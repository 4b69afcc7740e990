// The sum, the difference and the order of two-word numbers.
use crate::Wide;
use std::cmp::Ordering;
use std::ops::{Add, Sub};

impl Add for Wide {
    ghost use Rattle.std.specs.Prelude.{◌≡◌, ◌+◌, ◌^◌, ◌<◌};
    ghost use Rattle.word_wide.specs.Value.{value};

    type Output = Wide;

    ghost can_add = { λ a b. value a + value b < 2 ^ 128 };

    ghost add_gives = { λ a b r. value r ≡ value a + value b };

    // The sum of the low words has wrapped where it is below either of them; then one is carried.
    #[inline(always)]
    fn add(self, b: Wide) -> Wide {
        let lo = self.lo.wrapping_add(b.lo);
        if lo < self.lo {
            return Wide {
                hi: self.hi + b.hi + 1,
                lo,
            };
        }
        Wide {
            hi: self.hi + b.hi,
            lo,
        }
    }
}

impl Sub for Wide {
    ghost use Rattle.std.specs.Prelude.{◌≡◌, ◌-◌, ◌≤◌};
    ghost use Rattle.word_wide.specs.Value.{value};

    type Output = Wide;

    ghost can_sub = { λ a b. value b ≤ value a };

    ghost sub_gives = { λ a b r. value r ≡ value a - value b };

    // Where the low word of b is larger, one is borrowed.
    #[inline(always)]
    fn sub(self, b: Wide) -> Wide {
        if self.lo < b.lo {
            return Wide {
                hi: self.hi - b.hi - 1,
                lo: self.lo.wrapping_sub(b.lo),
            };
        }
        Wide {
            hi: self.hi - b.hi,
            lo: self.lo - b.lo,
        }
    }
}

// Equality and order are written here, since their contracts are to speak of the value: derived ones speak of the halves.
impl PartialEq for Wide {
    ghost use Rattle.std.specs.Prelude.{◌==◌};
    ghost use Rattle.std.proofs.Common.{rules};
    ghost use Rattle.std.specs.Cmp.Rules.{comparing};
    ghost use Rattle.std.specs.Ordering.{on};
    ghost use Rattle.word_wide.specs.Value.{value};

    ghost eq = { on value ◌==◌ };

    ghost laws = { Prim.search (comparing, rules) };

    fn eq(&self, other: &Wide) -> bool {
        let (a, b) = (*self, *other);
        a.hi == b.hi && a.lo == b.lo
    }
}

impl Eq for Wide {
    ghost use Rattle.std.proofs.Common.{rules};
    ghost use Rattle.std.specs.Cmp.Rules.{comparing};

    ghost laws = { Prim.search (comparing, rules) };
}

impl Ord for Wide {
    ghost use Rattle.std.proofs.Common.{rules};
    ghost use Rattle.std.specs.Cmp.Rules.{comparing};
    ghost use Rattle.std.specs.Ordering.{nat_cmp, on};
    ghost use Rattle.word_wide.specs.Value.{value};

    ghost cmp = { on value nat_cmp };

    ghost total = { Prim.search (comparing, rules) };

    ghost matches_partial_cmp = { Prim.search (comparing, rules) };

    ghost matches_eq = { Prim.search (comparing, rules) };

    // The high words decide, and the low ones where those are equal.
    fn cmp(&self, other: &Wide) -> Ordering {
        let (a, b) = (self.lo, other.lo);
        if self.hi == other.hi {
            return a.cmp(&b);
        }
        self.hi.cmp(&other.hi)
    }
}

impl PartialOrd for Wide {
    ghost use Rattle.std.proofs.Common.{rules};
    ghost use Rattle.std.specs.Cmp.{partial_order_from_own_ties};
    ghost use Rattle.std.specs.Cmp.Rules.{comparing};
    ghost use Rattle.std.specs.Ordering.{nat_cmp, on, as_partial_cmp};
    ghost use Rattle.word_wide.specs.Value.{value};

    ghost partial_cmp = { as_partial_cmp (on value nat_cmp) };

    ghost laws = { partial_order_from_own_ties (Prim.search (comparing, rules)) (Prim.search (comparing, rules)) };

    fn partial_cmp(&self, other: &Wide) -> Option<Ordering> {
        Some(self.cmp(other))
    }
}
