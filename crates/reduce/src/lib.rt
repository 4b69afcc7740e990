// The reduction, x times 2^e modulo y, with a refusal for input outside the limits.
#![tactic(auto)]

pub mod plain;
pub mod reduce;
pub mod refusal;
pub mod words;
