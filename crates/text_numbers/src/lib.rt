// Numbers in text: digits, fields read and fields written.
#![tactic(auto)]

pub mod digits;
pub mod read;
pub mod write;
