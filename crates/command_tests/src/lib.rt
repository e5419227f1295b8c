// What is asked of a command, and in which order: the tests of its content, and those of the zone that it comes from.
#![tactic(auto)]

mod asks; // one test, tried on each field of a command
mod content; // 11 to 14: what a command itself is refused for
mod order; // 4, 5, 9, 10, then these

pub use content::{check_content, is_capped, is_unserved};
pub use order::check_command;
