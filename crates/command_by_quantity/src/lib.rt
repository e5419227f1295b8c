// A command seen by quantity: what it says of each, its kind, aim and duration, and the most that a quantity may be.
#![tactic(auto)]

mod said; // said.rt: what a command says of a quantity, its kind, aim and duration
mod tops; // tops.rt: the most that a quantity may be

pub use said::{Kind, aim_of, duration_of, is_set, kind_of, says};
pub use tops::top_of;
