// The parts of a line of text, found and kept, and the fields that docs/LINES.md has.
// No function reads or writes a file, and a line may have any bytes.
#![tactic(auto)]

mod line;
mod scan;

pub use line::Line;
pub use scan::{find, find_arrow, has_blank_too_many, part};
pub use text_numbers::read::{Fault, read_signed, read_unsigned, read_word};
pub use text_numbers::write::{write_bytes, write_signed, write_unsigned, write_word};
