// The C functions of the face, two for each operation, since C has no generics: each is the operation at one width, and gives C the numbers of refusals and flags.
#![tactic(auto)]

ghost use Rattle.std.specs.Prelude.{◌≡◌};
ghost use Rattle.ieee.specs.Flags.{flag_word};
ghost use Rattle.ieee.specs.Format.{b64, b32};
ghost use Rattle.ieee.specs.Fma.{fma_of, fma_flags};
ghost use Rattle.ieee.specs.Fmod.{fmod_of};
ghost use Rattle.ieee.specs.Frexp.{frexp_of, frexp_exponent, ilogb_of};
ghost use Rattle.ieee.specs.Lists.{list_of};
ghost use Rattle.ieee.specs.Modf.{modf_of, modf_whole};
ghost use Rattle.ieee.specs.Nextafter.{nextafter_of};
ghost use Rattle.ieee.specs.Reduction.{reduce_of};
ghost use Rattle.ieee.specs.Refusal.{number_of, value_of};
ghost use Rattle.ieee.specs.Remquo.{remquo_of, quotient_of};
ghost use Rattle.ieee.specs.Rounded.{sqrt_rounded, fma_rounded, scalbn_rounded};
ghost use Rattle.ieee.specs.Scalbn.{scalbn_of, scalbn_flags};
ghost use Rattle.ieee.specs.Sqrt.{sqrt_of, sqrt_flags};
ghost use Rattle.ieee.specs.Whole.{trunc_of, trunc_flags, floor_of, floor_flags, ceil_of, ceil_flags};
ghost use Rattle.ieee_numeral_laws.specs.Read.{read_of, read_rounded};
ghost use Rattle.ieee_numeral_laws.specs.Write.{write_of};

use crate::put::{number_of_done, put_answer, put_flagged, put_length, put_rounded};

mod put;

#[unsafe(no_mangle)]
pub extern "C" fn pk_trunc64(x: u64) -> u64
    ensures { result ≡ trunc_of b64 x }
{
    paskerotim::trunc::<u64>(x)
}

#[unsafe(no_mangle)]
pub extern "C" fn pk_trunc64_flags(x: u64, flags: &mut u32) -> u64
    ensures { (result ≡ trunc_of b64 x) × (flags.new ≡ flag_word (trunc_flags b64 x)) }
{
    put_flagged(integral::trunc::trunc_flags::<u64>(x), flags)
}

#[unsafe(no_mangle)]
pub extern "C" fn pk_trunc32(x: u32) -> u32
    ensures { result ≡ trunc_of b32 x }
{
    paskerotim::trunc::<u32>(x)
}

#[unsafe(no_mangle)]
pub extern "C" fn pk_trunc32_flags(x: u32, flags: &mut u32) -> u32
    ensures { (result ≡ trunc_of b32 x) × (flags.new ≡ flag_word (trunc_flags b32 x)) }
{
    put_flagged(integral::trunc::trunc_flags::<u32>(x), flags)
}

#[unsafe(no_mangle)]
pub extern "C" fn pk_floor64(x: u64) -> u64
    ensures { result ≡ floor_of b64 x }
{
    paskerotim::floor::<u64>(x)
}

#[unsafe(no_mangle)]
pub extern "C" fn pk_floor64_flags(x: u64, flags: &mut u32) -> u64
    ensures { (result ≡ floor_of b64 x) × (flags.new ≡ flag_word (floor_flags b64 x)) }
{
    put_flagged(integral::floor::floor_flags::<u64>(x), flags)
}

#[unsafe(no_mangle)]
pub extern "C" fn pk_floor32(x: u32) -> u32
    ensures { result ≡ floor_of b32 x }
{
    paskerotim::floor::<u32>(x)
}

#[unsafe(no_mangle)]
pub extern "C" fn pk_floor32_flags(x: u32, flags: &mut u32) -> u32
    ensures { (result ≡ floor_of b32 x) × (flags.new ≡ flag_word (floor_flags b32 x)) }
{
    put_flagged(integral::floor::floor_flags::<u32>(x), flags)
}

#[unsafe(no_mangle)]
pub extern "C" fn pk_ceil64(x: u64) -> u64
    ensures { result ≡ ceil_of b64 x }
{
    paskerotim::ceil::<u64>(x)
}

#[unsafe(no_mangle)]
pub extern "C" fn pk_ceil64_flags(x: u64, flags: &mut u32) -> u64
    ensures { (result ≡ ceil_of b64 x) × (flags.new ≡ flag_word (ceil_flags b64 x)) }
{
    put_flagged(integral::ceil::ceil_flags::<u64>(x), flags)
}

#[unsafe(no_mangle)]
pub extern "C" fn pk_ceil32(x: u32) -> u32
    ensures { result ≡ ceil_of b32 x }
{
    paskerotim::ceil::<u32>(x)
}

#[unsafe(no_mangle)]
pub extern "C" fn pk_ceil32_flags(x: u32, flags: &mut u32) -> u32
    ensures { (result ≡ ceil_of b32 x) × (flags.new ≡ flag_word (ceil_flags b32 x)) }
{
    put_flagged(integral::ceil::ceil_flags::<u32>(x), flags)
}

#[unsafe(no_mangle)]
pub extern "C" fn pk_modf64(x: u64, whole: &mut u64) -> u64
    ensures { (result ≡ modf_of b64 x) × (whole.new ≡ modf_whole b64 x) }
{
    let a = paskerotim::modf::<u64>(x);
    *whole = a.whole;
    a.fraction
}

#[unsafe(no_mangle)]
pub extern "C" fn pk_modf32(x: u32, whole: &mut u32) -> u32
    ensures { (result ≡ modf_of b32 x) × (whole.new ≡ modf_whole b32 x) }
{
    let a = paskerotim::modf::<u32>(x);
    *whole = a.whole;
    a.fraction
}

#[unsafe(no_mangle)]
pub extern "C" fn pk_scalbn64(x: u64, n: i32) -> u64
    ensures { result ≡ scalbn_of b64 x n }
{
    paskerotim::scalbn::<u64>(x, n)
}

#[unsafe(no_mangle)]
pub extern "C" fn pk_scalbn64_flags(x: u64, n: i32, flags: &mut u32) -> u64
    ensures { (result ≡ scalbn_of b64 x n) × (flags.new ≡ flag_word (scalbn_flags b64 x n)) }
{
    put_flagged(scalbn::scalbn::scalbn_flags::<u64>(x, n), flags)
}

#[unsafe(no_mangle)]
pub extern "C" fn pk_scalbn64_rounded(
    attribute: u32,
    x: u64,
    n: i32,
    value: &mut u64,
    flags: &mut u32,
) -> u32
    ensures { (result ≡ (scalbn_rounded b64 attribute x n).number) × (value.new ≡ (scalbn_rounded b64 attribute x n).value)
        × (flags.new ≡ flag_word (scalbn_rounded b64 attribute x n).flags) }
{
    let answer = scalbn::rounded::scalbn_rounded::<u64>(attribute, x, n);
    put_rounded(answer, value, flags)
}

#[unsafe(no_mangle)]
pub extern "C" fn pk_scalbn32(x: u32, n: i32) -> u32
    ensures { result ≡ scalbn_of b32 x n }
{
    paskerotim::scalbn::<u32>(x, n)
}

#[unsafe(no_mangle)]
pub extern "C" fn pk_scalbn32_flags(x: u32, n: i32, flags: &mut u32) -> u32
    ensures { (result ≡ scalbn_of b32 x n) × (flags.new ≡ flag_word (scalbn_flags b32 x n)) }
{
    put_flagged(scalbn::scalbn::scalbn_flags::<u32>(x, n), flags)
}

#[unsafe(no_mangle)]
pub extern "C" fn pk_scalbn32_rounded(
    attribute: u32,
    x: u32,
    n: i32,
    value: &mut u32,
    flags: &mut u32,
) -> u32
    ensures { (result ≡ (scalbn_rounded b32 attribute x n).number) × (value.new ≡ (scalbn_rounded b32 attribute x n).value)
        × (flags.new ≡ flag_word (scalbn_rounded b32 attribute x n).flags) }
{
    let answer = scalbn::rounded::scalbn_rounded::<u32>(attribute, x, n);
    put_rounded(answer, value, flags)
}

#[unsafe(no_mangle)]
pub extern "C" fn pk_frexp64(x: u64, exponent: &mut i32) -> u64
    ensures { (result ≡ frexp_of b64 x) × (exponent.new ≡ frexp_exponent b64 x) }
{
    let a = paskerotim::frexp::<u64>(x);
    *exponent = a.exponent;
    a.fraction
}

#[unsafe(no_mangle)]
pub extern "C" fn pk_frexp32(x: u32, exponent: &mut i32) -> u32
    ensures { (result ≡ frexp_of b32 x) × (exponent.new ≡ frexp_exponent b32 x) }
{
    let a = paskerotim::frexp::<u32>(x);
    *exponent = a.exponent;
    a.fraction
}

#[unsafe(no_mangle)]
pub extern "C" fn pk_ilogb64(x: u64) -> i32
    ensures { result ≡ ilogb_of b64 x }
{
    paskerotim::ilogb::<u64>(x)
}

#[unsafe(no_mangle)]
pub extern "C" fn pk_ilogb32(x: u32) -> i32
    ensures { result ≡ ilogb_of b32 x }
{
    paskerotim::ilogb::<u32>(x)
}

#[unsafe(no_mangle)]
pub extern "C" fn pk_nextafter64(x: u64, y: u64) -> u64
    ensures { result ≡ nextafter_of b64 x y }
{
    paskerotim::nextafter::<u64>(x, y)
}

#[unsafe(no_mangle)]
pub extern "C" fn pk_nextafter32(x: u32, y: u32) -> u32
    ensures { result ≡ nextafter_of b32 x y }
{
    paskerotim::nextafter::<u32>(x, y)
}

#[unsafe(no_mangle)]
pub extern "C" fn pk_fmod64(x: u64, y: u64) -> u64
    ensures { result ≡ fmod_of b64 x y }
{
    paskerotim::fmod::<u64>(x, y)
}

#[unsafe(no_mangle)]
pub extern "C" fn pk_fmod32(x: u32, y: u32) -> u32
    ensures { result ≡ fmod_of b32 x y }
{
    paskerotim::fmod::<u32>(x, y)
}

#[unsafe(no_mangle)]
pub extern "C" fn pk_remquo64(x: u64, y: u64, quotient: &mut i32) -> u64
    ensures { (result ≡ remquo_of b64 x y) × (quotient.new ≡ quotient_of b64 x y) }
{
    let a = paskerotim::remquo::<u64>(x, y);
    *quotient = a.quotient;
    a.value
}

#[unsafe(no_mangle)]
pub extern "C" fn pk_reduce64(x: u64, e: u32, y: u64, value: &mut u64) -> u32
    ensures { (result ≡ number_of (reduce_of 64 x e y)) × (value.new ≡ value_of (reduce_of 64 x e y)) }
{
    put_answer(paskerotim::reduce::<u64>(x, e, y), value)
}

#[unsafe(no_mangle)]
pub extern "C" fn pk_reduce32(x: u32, e: u32, y: u32, value: &mut u32) -> u32
    ensures { (result ≡ number_of (reduce_of 32 x e y)) × (value.new ≡ value_of (reduce_of 32 x e y)) }
{
    put_answer(paskerotim::reduce::<u32>(x, e, y), value)
}

#[unsafe(no_mangle)]
pub extern "C" fn pk_sqrt64(x: u64) -> u64
    ensures { result ≡ sqrt_of b64 x }
{
    paskerotim::sqrt::<u64>(x)
}

#[unsafe(no_mangle)]
pub extern "C" fn pk_sqrt64_flags(x: u64, flags: &mut u32) -> u64
    ensures { (result ≡ sqrt_of b64 x) × (flags.new ≡ flag_word (sqrt_flags b64 x)) }
{
    put_flagged(sqrt::sqrt::sqrt_flags::<u64>(x), flags)
}

#[unsafe(no_mangle)]
pub extern "C" fn pk_sqrt64_rounded(attribute: u32, x: u64, value: &mut u64, flags: &mut u32) -> u32
    ensures { (result ≡ (sqrt_rounded b64 attribute x).number) × (value.new ≡ (sqrt_rounded b64 attribute x).value)
        × (flags.new ≡ flag_word (sqrt_rounded b64 attribute x).flags) }
{
    let answer = sqrt::sqrt::sqrt_rounded::<u64>(attribute, x);
    put_rounded(answer, value, flags)
}

#[unsafe(no_mangle)]
pub extern "C" fn pk_sqrt32(x: u32) -> u32
    ensures { result ≡ sqrt_of b32 x }
{
    paskerotim::sqrt::<u32>(x)
}

#[unsafe(no_mangle)]
pub extern "C" fn pk_sqrt32_flags(x: u32, flags: &mut u32) -> u32
    ensures { (result ≡ sqrt_of b32 x) × (flags.new ≡ flag_word (sqrt_flags b32 x)) }
{
    put_flagged(sqrt::sqrt::sqrt_flags::<u32>(x), flags)
}

#[unsafe(no_mangle)]
pub extern "C" fn pk_sqrt32_rounded(attribute: u32, x: u32, value: &mut u32, flags: &mut u32) -> u32
    ensures { (result ≡ (sqrt_rounded b32 attribute x).number) × (value.new ≡ (sqrt_rounded b32 attribute x).value)
        × (flags.new ≡ flag_word (sqrt_rounded b32 attribute x).flags) }
{
    let answer = sqrt::sqrt::sqrt_rounded::<u32>(attribute, x);
    put_rounded(answer, value, flags)
}

#[unsafe(no_mangle)]
pub extern "C" fn pk_fma64(x: u64, y: u64, z: u64) -> u64
    ensures { result ≡ fma_of b64 x y z }
{
    paskerotim::fma::<u64>(x, y, z)
}

#[unsafe(no_mangle)]
pub extern "C" fn pk_fma64_flags(x: u64, y: u64, z: u64, flags: &mut u32) -> u64
    ensures { (result ≡ fma_of b64 x y z) × (flags.new ≡ flag_word (fma_flags b64 x y z)) }
{
    put_flagged(fma::fma::fma_flags::<u64>(x, y, z), flags)
}

#[unsafe(no_mangle)]
pub extern "C" fn pk_fma64_rounded(
    attribute: u32,
    x: u64,
    y: u64,
    z: u64,
    value: &mut u64,
    flags: &mut u32,
) -> u32
    ensures { (result ≡ (fma_rounded b64 attribute x y z).number) × (value.new ≡ (fma_rounded b64 attribute x y z).value)
        × (flags.new ≡ flag_word (fma_rounded b64 attribute x y z).flags) }
{
    let answer = fma::rounded::fma_rounded::<u64>(attribute, x, y, z);
    put_rounded(answer, value, flags)
}

#[unsafe(no_mangle)]
pub extern "C" fn pk_fma32(x: u32, y: u32, z: u32) -> u32
    ensures { result ≡ fma_of b32 x y z }
{
    paskerotim::fma::<u32>(x, y, z)
}

#[unsafe(no_mangle)]
pub extern "C" fn pk_fma32_flags(x: u32, y: u32, z: u32, flags: &mut u32) -> u32
    ensures { (result ≡ fma_of b32 x y z) × (flags.new ≡ flag_word (fma_flags b32 x y z)) }
{
    put_flagged(fma::fma::fma_flags::<u32>(x, y, z), flags)
}

#[unsafe(no_mangle)]
pub extern "C" fn pk_fma32_rounded(
    attribute: u32,
    x: u32,
    y: u32,
    z: u32,
    value: &mut u32,
    flags: &mut u32,
) -> u32
    ensures { (result ≡ (fma_rounded b32 attribute x y z).number) × (value.new ≡ (fma_rounded b32 attribute x y z).value)
        × (flags.new ≡ flag_word (fma_rounded b32 attribute x y z).flags) }
{
    let answer = fma::rounded::fma_rounded::<u32>(attribute, x, y, z);
    put_rounded(answer, value, flags)
}

#[unsafe(no_mangle)]
pub extern "C" fn pk_list64(op: u32, xs: &[u64], ys: &mut [u64]) -> u32
    ensures { (result ≡ number_of (list_of b64 op xs.now ys.old).answer)
        × (ys.new ≡ (list_of b64 op xs.now ys.old).output) }
{
    number_of_done(paskerotim::list64(op, xs, ys))
}

#[unsafe(no_mangle)]
pub extern "C" fn pk_read_hex64(text: &[u8], value: &mut u64) -> u32
    ensures { (result ≡ number_of (read_of b64 text.now)) × (value.new ≡ value_of (read_of b64 text.now)) }
{
    put_answer(paskerotim::read_hex::<u64>(text), value)
}

#[unsafe(no_mangle)]
pub extern "C" fn pk_read_hex64_rounded(attribute: u32, text: &[u8], value: &mut u64) -> u32
    ensures { (result ≡ number_of (read_rounded b64 attribute text.now))
        × (value.new ≡ value_of (read_rounded b64 attribute text.now)) }
{
    put_answer(paskerotim::read_hex_rounded::<u64>(attribute, text), value)
}

#[unsafe(no_mangle)]
pub extern "C" fn pk_read_hex32(text: &[u8], value: &mut u32) -> u32
    ensures { (result ≡ number_of (read_of b32 text.now)) × (value.new ≡ value_of (read_of b32 text.now)) }
{
    put_answer(paskerotim::read_hex::<u32>(text), value)
}

#[unsafe(no_mangle)]
pub extern "C" fn pk_read_hex32_rounded(attribute: u32, text: &[u8], value: &mut u32) -> u32
    ensures { (result ≡ number_of (read_rounded b32 attribute text.now))
        × (value.new ≡ value_of (read_rounded b32 attribute text.now)) }
{
    put_answer(paskerotim::read_hex_rounded::<u32>(attribute, text), value)
}

#[unsafe(no_mangle)]
pub extern "C" fn pk_write_hex64(x: u64, out: &mut [u8], length: &mut u32) -> u32
    ensures { (result ≡ number_of (write_of b64 x out.old).answer) × (length.new ≡ value_of (write_of b64 x out.old).answer)
        × (out.new ≡ (write_of b64 x out.old).output) }
{
    put_length(paskerotim::write_hex::<u64>(x, out), length)
}

#[unsafe(no_mangle)]
pub extern "C" fn pk_write_hex32(x: u32, out: &mut [u8], length: &mut u32) -> u32
    ensures { (result ≡ number_of (write_of b32 x out.old).answer) × (length.new ≡ value_of (write_of b32 x out.old).answer)
        × (out.new ≡ (write_of b32 x out.old).output) }
{
    put_length(paskerotim::write_hex::<u32>(x, out), length)
}
