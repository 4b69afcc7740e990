// The hex reader: a hexadecimal numeral, rounded once.
#![tactic(auto)]

pub mod exponent;
pub mod lead;
pub mod number;
pub mod numeral;
pub mod read;
pub mod scan;
