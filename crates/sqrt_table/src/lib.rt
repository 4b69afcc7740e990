// The root of a whole number by libm's table of reciprocal roots and Goldschmidt's rounds.
#![tactic(auto)]

pub mod reciprocal;
pub mod root;
pub mod table;
