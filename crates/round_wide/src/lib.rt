// Numbers of one word and of two with a sticky mark: shifted right, and folded into one word.
#![tactic(auto)]

pub mod fold;
pub mod sticky;
