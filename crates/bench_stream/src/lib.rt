// Bench scripts from a stream that is read to one that is written, in large pieces and constant memory.
#![tactic(auto)]

mod input; // input.rt: what is read and not yet run
mod pieces; // pieces.rt: the records of one piece
mod scripts; // scripts.rt: a script from its first record to its last

pub use scripts::{Ended, play};
