// The words whose numbers have a root by the table: each has a route to it of its own.
ghost use Rattle.std.proofs.Math.Dec.{lit≤};
ghost use Rattle.std.specs.Prelude.{◌≡◌, ◌+◌, ◌-◌, ◌%◌, ◌^◌};
ghost use Rattle.sqrt_digits.specs.Floor.{pairs};
ghost use Rattle.sqrt_table.specs.Residual.{Residual};
ghost use Rattle.sqrt_number.specs.Split.{Tabled};

use fmt_fields::width::Width;
use sqrt_table::root::{NearRoot, Radicand};

pub trait Rooted: Width {
    // The root of a radicand, of as many bits as a significand has. Below it the word is zero.
    fn near_root(radicand: Radicand) -> NearRoot
        requires { radicand.word % 2 ^ (62 - Self.layout.frac) ≡ 0 }
        ensures { Residual (pairs radicand.word (Self.layout.frac + 1)) result.root result.rem };

    ghost tabled: { Tabled Self.layout };
}

impl Rooted for u64 {
    ghost tabled = { record { six = lit≤ tt; below = lit≤ tt } };

    fn near_root(radicand: Radicand) -> NearRoot {
        radicand.root53()
    }
}

impl Rooted for u32 {
    ghost tabled = { record { six = lit≤ tt; below = lit≤ tt } };

    fn near_root(radicand: Radicand) -> NearRoot {
        radicand.root24()
    }
}
