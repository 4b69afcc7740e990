// The root of a whole number, digit by digit: rounded down, and whether it is exact.
#![tactic(auto)]

ghost use Rattle.std.specs.Prelude.{◌≡◌, ◌+◌, ◌*◌, ◌≤◌, ◌<◌, ◌^◌, eqb};
ghost use Rattle.sqrt_digits.specs.Floor.{FloorRoot, pairs};

// A root rounded down, and whether its square is the number. A contract by `FloorRoot` leaves one root: `floor_unique` (proofs/Digits.antt).
// There is a root in either case, and the caller's next step takes both alike: a variant for each case would hold the same word twice.
#[derive(Clone, Copy)]
pub struct RootFloor {
    pub root: u64,
    pub exact: bool,
}

// A root rounded down, and its residual.
#[derive(Clone, Copy)]
struct PartialRoot {
    root: u64,
    rem: u64,
}

// One digit: the number is four times the square of the root so far, plus rem. The next digit is 1 where the square then grows by no more than rem.
fn next_digit(root: u64, rem: u64) -> PartialRoot
    requires { (root < 2 ^ 60) × (rem ≤ 8 * root + 3) }
    ensures { FloorRoot (4 * (root * root) + rem) result.root × (result.rem + result.root * result.root ≡ 4 * (root * root) + rem) }
{
    let trial = root * 4 + 1;
    if trial <= rem {
        return PartialRoot {
            root: root * 2 + 1,
            rem: rem - trial,
        };
    }
    PartialRoot {
        root: root * 2,
        rem,
    }
}

// The root of the first `digits` pairs of bits of m, one digit for each pair.
pub fn floor_root(m: u64, digits: u32) -> RootFloor
    requires { digits ≤ 60 }
    ensures { FloorRoot (pairs m digits) result.root × (result.exact ≡ eqb (result.root * result.root) (pairs m digits)) }
{
    let mut root: u64 = 0;
    let mut rem: u64 = 0;
    let mut rest = m;
    for _ in 0..digits {
        let next = next_digit(root, rem * 4 + (rest >> 62));
        root = next.root;
        rem = next.rem;
        rest <<= 2;
    }
    RootFloor {
        root,
        exact: rem == 0,
    }
}
