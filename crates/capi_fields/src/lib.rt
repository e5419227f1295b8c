// The parts of C's flat requests and responses, each by itself: a field, what a clear names, a setpoint's duration, a value of a
// response, a yes or a no.
#![tactic(auto)]

mod amounts; // amounts.rt: a value of a response, -1 absent
mod fields; // fields.rt: the parts of a request
mod marks; // marks.rt: a yes or a no as a word

pub use amounts::{amount_of, flat_amount};
pub use fields::{
    FlatField, aim_of, aimed, are_limit_kinds, are_phase_kinds, are_setpoint_kinds, field_of,
    flat_field, flat_target, has_aim, is_omitted, no_field, setpoint_time, target_of, time_of,
};
pub use marks::{is_yes, word_of};
