// The rounding step that every rounded operation ends in: locate, then choose.
#![tactic(auto)]

pub mod choose;
pub mod flags;
pub mod round;
