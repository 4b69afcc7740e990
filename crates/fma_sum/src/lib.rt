// The parts of x times y plus z of numbers, added and located, over the format.
#![tactic(auto)]

pub mod sum;
pub mod third;
pub mod units;
