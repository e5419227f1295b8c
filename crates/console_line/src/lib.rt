// What a line's words say: which command it is, how many words that has, and its numbers.
#![tactic(auto)]

mod commands; // commands.rt: a command's name, how many words it has, and what its numbers are
mod fields; // fields.rt: the numbers of a line

pub use commands::{Command, Line, line_of, read_numbers};
pub use fields::FIELDS;
