// fma: x times y plus z, rounded once.
#![tactic(auto)]

pub mod flags;
pub mod fma;
pub mod fused;
pub mod rounded;
pub mod special;
