// What a command does: what it leaves held by its zone, and the result that its response has.
#![tactic(auto)]

mod actions; // what a command does to one quantity: keep, remove or put
mod obey; // the zone's record once it has obeyed
mod outcomes; // the result in the response

pub use actions::Action;
pub use command_fields::{is_negative, natural_of};
pub use command_tests::{check_content, is_capped, is_unserved};
pub use obey::obeyed;
pub use outcomes::{current_outcome, limit_outcome, setpoint_outcome};
