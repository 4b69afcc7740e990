// The reduction by libm's reducer, on words of 64 bits.
#![tactic(auto)]

pub mod modular;
pub mod reducer;
pub mod scale;
pub mod start;
