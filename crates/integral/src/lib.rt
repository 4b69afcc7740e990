// trunc, floor and ceil, each with its flags, and modf, over the format.
#![tactic(auto)]

pub mod ceil;
pub mod directed;
pub mod flags;
pub mod floor;
pub mod mask;
pub mod modf;
pub mod point;
pub mod trunc;
