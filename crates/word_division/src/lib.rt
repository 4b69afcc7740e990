// The quotient and the remainder of a two-word number by a word.
#![tactic(auto)]

pub mod digit;
pub mod division;
