// The list call: one operation at every place of a list, with a refusal for input outside the limits.
#![tactic(auto)]

pub mod call;
pub mod fill;
pub mod operation;
pub mod refusal;
