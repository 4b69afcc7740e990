// The root of a whole number, of 53 bits or of 24, with its residual, by libm's table and Goldschmidt's rounds. `sqrt_digits::floor_root` computes it digit by digit.
ghost use Rattle.std.specs.Prelude.{◌≡◌, ◌-◌, ◌*◌, ◌/◌, ◌%◌, ◌^◌, ◌<◌, ◌≤◌};
ghost use Rattle.sqrt_laws.specs.Near.{Near, Within};
ghost use Rattle.sqrt_laws.specs.Round.{root_by, factor, next, last};
ghost use Rattle.sqrt_digits.specs.Floor.{pairs};
ghost use Rattle.sqrt_table.specs.Guess.{Takes, Begins};
ghost use Rattle.sqrt_table.specs.Residual.{Residual};

use word_wide::product::{mul_hi, mul_lo};

// A whole number next to a root, and its residual: the number less its square.
#[derive(Clone, Copy)]
pub struct NearRoot {
    pub root: u64,
    pub rem: u64,
}

// A radicand at the head of a word, with a guess at its reciprocal root, of 32 fraction bits and as near as the table's.
#[derive(Clone, Copy)]
pub struct Radicand {
    pub word: u64,
    pub guess: u64,
    ghost least: { 2 ^ 62 ≤ word },
    ghost begins: { Begins (word / 2 ^ 32) guess },
}

// A number of half a word, with a guess at its reciprocal root. Both are small enough that no factor of a round is negative.
#[derive(Clone, Copy)]
struct Half {
    m: u64,
    r: u64,
    ghost takes: { Takes m r },
}

// The start of a round on half words: √m by the guess, and 3 less the product of both.
#[derive(Clone, Copy)]
struct Round {
    root: u64,
    factor: u64,
}

impl Half {
    fn begin_round(self) -> Round
        ensures { (result.root ≡ root_by (2 ^ 30) self.m self.r) × (result.factor ≡ factor (2 ^ 30) self.m self.r) }
    {
        let root = self.m * self.r / 0x1_0000_0000;
        let square = root * self.r / 0x1_0000_0000;
        let factor = 0xbfff_fffe - square;
        Round { root, factor }
    }

    // A round on half words: refines the reciprocal root.
    fn refine(self) -> u64
        ensures { result ≡ next (2 ^ 30) self.m self.r }
    {
        self.r * self.begin_round().factor / 0x8000_0000
    }

    // The last round on half words gives √m, with 29 fraction bits.
    fn last(self) -> u64
        ensures { result ≡ last (2 ^ 30) self.m self.r }
    {
        let b = self.begin_round();
        b.root * b.factor / 0x1_0000_0000
    }
}

// √m truncated to 24 bits. The remainder tells the compiler that the reciprocal root is half a word.
fn guess_narrow(m: u64, r: u64) -> u64
    requires { (2 ^ 30 ≤ m) × (m < 2 ^ 32) × Begins m r }
    ensures { Within (m * 2 ^ 16) result × (result < 2 ^ 24) }
{
    let t = Half { m, r }.refine() % 0x1_0000_0000;
    Half { m, r: t }.last() / 64
}

// The last round on whole words gives √m, with 61 fraction bits.
fn last_wide(m: u64, r: u64) -> u64
    requires { Near (2 ^ 62) m r (10 * 2 ^ 32) }
    ensures { result ≡ last (2 ^ 62) m r }
{
    let s = mul_hi(m, r);
    let d = mul_hi(s, r);
    let u = 0xbfff_ffff_ffff_fffe - d;
    mul_hi(s, u)
}

// The residual of such a q, m less its square. It is small, so the low words give it.
fn residual(m: u64, q: u64) -> u64
    requires { Within (m * 2 ^ 42) q × (q < 2 ^ 53) }
    ensures { result ≡ m * 2 ^ 42 - q * q }
{
    (m << 42).wrapping_sub(mul_lo(q, q))
}

impl Radicand {
    // 1 / √m with 32 fraction bits, from the upper half of the word m.
    fn reciprocal_root(self) -> u64
        ensures { (result < 2 ^ 32) × Near (2 ^ 62) self.word (result * 2 ^ 32) (10 * 2 ^ 32) }
    {
        let m = self.word / 0x1_0000_0000;
        let r = Half { m, r: self.guess }.refine() % 0x1_0000_0000;
        Half { m, r }.refine()
    }

    // √m truncated to 53 bits.
    fn guess_wide(self) -> u64
        ensures { Within (self.word * 2 ^ 42) result × (result < 2 ^ 53) }
    {
        last_wide(self.word, self.reciprocal_root() * 0x1_0000_0000) / 512
    }

    // The root of the first 24 pairs of bits, where the lower half of the word is zero. The guess is read before, since one body with the table in it would be too
    // long for the compiler to lay into its callers.
    pub fn root24(self) -> NearRoot
        requires { self.word % 2 ^ 32 ≡ 0 }
        ensures { Residual (pairs self.word 24) result.root result.rem }
    {
        let m = self.word / 0x1_0000_0000;
        let root = guess_narrow(m, self.guess);
        let rem = m * 0x1_0000 - root * root;
        NearRoot { root, rem }
    }

    // The root of the first 53 pairs of bits.
    pub fn root53(self) -> NearRoot
        ensures { Residual (pairs self.word 53) result.root result.rem }
    {
        let root = self.guess_wide();
        let rem = residual(self.word, root);
        NearRoot { root, rem }
    }
}
