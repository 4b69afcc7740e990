// The lower neighbour and the location of a significand times a power of two.
#![tactic(auto)]

pub mod locate;
pub mod normalise;
pub mod shift_out;
