// scalbn: a number times a power of two, rounded once.
#![tactic(auto)]

pub mod classes;
pub mod moves;
pub mod rounded;
pub mod scalbn;
