// The formats and their patterns, what an operation raises, the attributes of rounding, and the refusals.
#![tactic(auto)]

pub mod attribute;
pub mod env;
pub mod fields;
pub mod layout;
pub mod pattern;
pub mod refusal;
pub mod weight;
pub mod width;
