// The hexadecimal numeral of a pattern, put into a room.
#![tactic(auto)]

pub mod parts;
pub mod put;
pub mod write;
