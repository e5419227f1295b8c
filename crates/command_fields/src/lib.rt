// One field of a command: what it says, its bounds, the reason of a refusal, and how long a value holds.
#![tactic(auto)]

mod durations; // how long a value holds
mod fields; // what a field says
mod numbers; // the reason of a refusal, and a value as a response has it

ghost use Rattle.std.specs.Prelude.{◌≡◌, cond, eqb};
ghost use Rattle.command_fields.specs.Params.{limit_field, setpoint_field, aim_field, phase_field};

pub use durations::{setpoint_duration, until_of};
pub use fields::{
    field_above, field_names, field_negative, field_too_low, is_negative, natural_of,
};
pub use numbers::{reason_of, stated};
use wire_messages::{Field, Limits, Phases, Setpoints, target_field};

// The one of two fields that is of direction d.
fn of_direction(consumption: Field, production: Field, d: u64) -> Field
    ensures { result ≡ cond (eqb d 0) consumption production }
{
    if d == 0 { consumption } else { production }
}

pub fn limit_field(m: Limits, d: u64) -> Field
    ensures { result ≡ limit_field m d }
{
    of_direction(m.consumption, m.production, d)
}

pub fn setpoint_field(m: Setpoints, d: u64) -> Field
    ensures { result ≡ setpoint_field m d }
{
    of_direction(target_field(m.consumption), target_field(m.production), d)
}

pub fn aim_field(a: Option<u64>, d: u64) -> Field
    ensures { result ≡ aim_field a d }
{
    if a.is_none_or(|e| e == d) {
        Field::Null
    } else {
        Field::Absent
    }
}

// A map of phases: A 0, B 1, C 2.
pub fn phase_field(m: Phases, p: usize) -> Field
    ensures { result ≡ phase_field m p }
{
    match p {
        0 => m.a,
        1 => m.b,
        _ => m.c,
    }
}
