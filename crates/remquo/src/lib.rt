// remquo: the remainder of x by the nearest multiple of y, and that multiple's number.
#![tactic(auto)]

pub mod answer;
pub mod division;
pub mod lead;
pub mod remquo;
pub mod settle;
