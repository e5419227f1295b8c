// The table of links over plain numbers: what is shown, the control state, the rows.
#![tactic(auto)]

mod control_state; // the control state beside the values of a row
mod leaves; // what is shown of a number, and when the failsafe ends
mod rows; // the rows, each from the numbers that the passes over the zones met

pub use leaves::{failsafe_end, shown};
pub use rows::{values_down, values_none, values_up};
