// fmod: the remainder of x by y, toward zero.
#![tactic(auto)]

pub mod division;
pub mod fmod;
pub mod routes;
