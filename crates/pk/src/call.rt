// The calls: each operation of the library by its number in the table.
ghost use Rattle.std.specs.Prelude.{◌≡◌, ◌≤◌};
ghost use Rattle.cmd_operations.specs.Table.{one, two, three, flagged, rounded, signed, answers_of};
ghost use Rattle.ieee.specs.Flags.{flag_word};
ghost use Rattle.ieee.specs.Refusal.{number_of, value_of};
ghost use Rattle.fmt_fields.specs.Numbered.{rounded_of};
ghost use Rattle.fmt_fields.specs.Refused.{answer_of};
ghost use Rattle.flagged.specs.Record.{record_of};

use cmd_operations::answers::Answers;
use cmd_operations::request::Operands;
use fmt_fields::weight::weigh;
use paskerotim::{Flagged, Flags, Frexp, Parted, Refusal, Remquo, Width};

// The operations by their numbers; those under an attribute come last. A 32-bit word was read from eight digits, and an unsigned number within its
// range, so the casts lose nothing. A row's number stays a number: `answers_of` and `row_of`
// (specs/Table.antt of cmd_operations) have it so. A table of functions would need one type for all.
#[tactic(auto, unfolding(cmd_operations::specs::Table::answers_of))]
pub fn answer_of(number: usize, a: Operands) -> Answers
    ensures { result ≡ answers_of number a }
{
    let x = (a.x % 4294967296) as u32;
    let y = (a.y % 4294967296) as u32;
    let z = (a.z % 4294967296) as u32;
    match number {
        0 => flagged(paskerotim::floor_flags(a.x)),
        1 => flagged(paskerotim::floor_flags(x)),
        2 => flagged(paskerotim::trunc_flags(a.x)),
        3 => flagged(paskerotim::trunc_flags(x)),
        4 => flagged(paskerotim::scalbn_flags(a.x, a.n)),
        5 => flagged(paskerotim::scalbn_flags(x, a.n)),
        6 => word(paskerotim::fmod(a.x, a.y)),
        7 => word(paskerotim::fmod(x, y)),
        8 => quotient(paskerotim::remquo(a.x, a.y)),
        9 => reduced(paskerotim::reduce(a.x, y, a.z)),
        10 => reduced(paskerotim::reduce(x, y, z)),
        11 => flagged(paskerotim::sqrt_flags(a.x)),
        12 => flagged(paskerotim::sqrt_flags(x)),
        13 => flagged(paskerotim::fma_flags(a.x, a.y, a.z)),
        14 => flagged(paskerotim::fma_flags(x, y, z)),
        15 => flagged(paskerotim::ceil_flags(a.x)),
        16 => flagged(paskerotim::ceil_flags(x)),
        17 => parts(paskerotim::modf(a.x)),
        18 => parts(paskerotim::modf(x)),
        19 => exponent(paskerotim::frexp(a.x)),
        20 => exponent(paskerotim::frexp(x)),
        21 => integer(paskerotim::ilogb(a.x)),
        22 => integer(paskerotim::ilogb(x)),
        23 => word(paskerotim::nextafter(a.x, a.y)),
        24 => word(paskerotim::nextafter(x, y)),
        _ => answer_under(number, a),
    }
}

// The operations under an attribute, by their numbers.
#[tactic(auto, unfolding(cmd_operations::specs::Table::answers_of))]
fn answer_under(number: usize, a: Operands) -> Answers
    requires { 25 ≤ number }
    ensures { result ≡ answers_of number a }
{
    let x = (a.x % 4294967296) as u32;
    let y = (a.y % 4294967296) as u32;
    let z = (a.z % 4294967296) as u32;
    let attribute = (a.attribute % 4294967296) as u32;
    match number {
        25 => rounded(paskerotim::sqrt_rounded(attribute, a.x)),
        26 => rounded(paskerotim::sqrt_rounded(attribute, x)),
        27 => rounded(paskerotim::fma_rounded(attribute, a.x, a.y, a.z)),
        28 => rounded(paskerotim::fma_rounded(attribute, x, y, z)),
        29 => rounded(paskerotim::scalbn_rounded(attribute, a.x, a.n)),
        30 => rounded(paskerotim::scalbn_rounded(attribute, x, a.n)),
        _ => two_answers(0, 0),
    }
}

fn three_answers(x: u64, y: u64, z: u64) -> Answers
    ensures { result ≡ three x y z }
{
    Answers { x, y, z, n: 0 }
}

fn two_answers(x: u64, y: u64) -> Answers
    ensures { result ≡ two x y }
{
    three_answers(x, y, 0)
}

fn signed_answer(x: u64, n: i32) -> Answers
    ensures { result ≡ signed x n }
{
    Answers { x, y: 0, z: 0, n }
}

fn word<W: Width>(x: W) -> Answers
    ensures { result ≡ one (W.pattern x) }
{
    two_answers(x.widen(), 0)
}

// The flags by libm's bits.
fn word_of(f: Flags) -> u64
    ensures { result ≡ flag_word (record_of f) }
{
    let invalid = weigh(f.invalid, 1);
    let divided = weigh(f.division_by_zero, 4);
    let above = weigh(f.overflow, 8);
    let below = weigh(f.underflow, 16);
    let inexact = weigh(f.inexact, 32);
    (invalid + divided + above + below + inexact) as u64
}

fn flagged<W: Width>(r: Flagged<W, Flags>) -> Answers
    ensures { result ≡ flagged (W.pattern r.value) (record_of r.flags) }
{
    two_answers(r.value.widen(), word_of(r.flags))
}

// The number of a refusal comes first: 0 where the call is done.
fn rounded<W: Width>(r: Result<Flagged<W, Flags>, Refusal>) -> Answers
    ensures { result ≡ rounded (rounded_of W.pattern record_of r) }
{
    match r {
        Ok(done) => three_answers(0, done.value.widen(), word_of(done.flags)),
        Err(refusal) => two_answers(refusal.number() as u64, 0),
    }
}

fn reduced<W: Width>(r: Result<W, Refusal>) -> Answers
    ensures { result ≡ two (number_of (answer_of W.pattern r)) (value_of (answer_of W.pattern r)) }
{
    match r {
        Ok(value) => two_answers(0, value.widen()),
        Err(refusal) => two_answers(refusal.number() as u64, 0),
    }
}

fn parts<W: Width>(r: Parted<W>) -> Answers
    ensures { result ≡ two (W.pattern r.fraction) (W.pattern r.whole) }
{
    two_answers(r.fraction.widen(), r.whole.widen())
}

fn quotient<W: Width>(r: Remquo<W>) -> Answers
    ensures { result ≡ signed (W.pattern r.value) r.quotient }
{
    signed_answer(r.value.widen(), r.quotient)
}

fn exponent<W: Width>(r: Frexp<W>) -> Answers
    ensures { result ≡ signed (W.pattern r.fraction) r.exponent }
{
    signed_answer(r.fraction.widen(), r.exponent)
}

fn integer(n: i32) -> Answers
    ensures { result ≡ signed 0 n }
{
    signed_answer(0, n)
}
