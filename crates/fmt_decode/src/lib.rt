// Numbers unpacked into a significand, a signed exponent and a sign; magnitudes packed; operands that have no remainder.
#![tactic(auto)]

pub mod norm;
pub mod pack;
pub mod remainder;
