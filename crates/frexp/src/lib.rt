// frexp and ilogb: the exponent of a number, and its fraction.
#![tactic(auto)]

pub mod answer;
pub mod frexp;
pub mod ilogb;
