// The root by digits as C functions, to run beside the table's; not part of `paskerotim`.
// A function for each width, since C has no generic ones.
#![tactic(auto)]

ghost use Rattle.std.specs.Prelude.{◌≡◌};
ghost use Rattle.ieee.specs.Format.{b64, b32};
ghost use Rattle.ieee.specs.Sqrt.{sqrt_of};

use fmt_fields::layout::{BINARY32, BINARY64};
use sqrt::sqrt::sqrt_pattern;

#[unsafe(no_mangle)]
pub extern "C" fn pk_plain_sqrt64(x: u64) -> u64
    ensures { result ≡ sqrt_of b64 x }
{
    sqrt_pattern(BINARY64, x)
}

#[unsafe(no_mangle)]
pub extern "C" fn pk_plain_sqrt32(x: u32) -> u32
    ensures { result ≡ sqrt_of b32 x }
{
    sqrt_pattern(BINARY32, x as u64) as u32
}
