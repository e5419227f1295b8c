// The parameters of a Set command as one shape, which SetLimit and SetSetpoint alike are read into and written from.
ghost use Rattle.std.specs.Prelude.{◌≡◌};
ghost use Rattle.wire_messages.specs.Shapes.{duration_of, target_of, limits_from, setpoints_from};
ghost use Rattle.wire_messages.specs.Shapes.{duration_amount, target_field, setting_of_limits, setting_of_setpoints};

use crate::{Field, Limits, Setpoints};

// The values, and apart from them the duration as it stands on the wire: what an omitted one means is the command's to say.
#[derive(Clone, Copy)]
pub struct Setting {
    pub consumption: Field,
    pub production: Field,
    pub duration: Option<u64>,
    pub cause: u64,
}

// An omitted duration of limits is 0.
pub fn duration_of(a: Option<u64>) -> u64
    ensures { result ≡ duration_of a }
{
    a.unwrap_or(0)
}

fn target_of(f: Field) -> Option<i64>
    ensures { result ≡ target_of f }
{
    match f {
        Field::Absent | Field::Null => None,
        Field::Value(v) => Some(v),
    }
}

// What SetLimit makes of its parameters.
#[tactic(auto, unfolding(crate::specs::Shapes::limits_from))]
pub fn limits_from(s: Setting) -> Limits
    ensures { result ≡ limits_from s }
{
    Limits {
        consumption: s.consumption,
        production: s.production,
        duration: duration_of(s.duration),
        cause: s.cause,
    }
}

// What SetSetpoint makes of its parameters, which have no null and keep their duration as it stands.
#[tactic(auto, unfolding(crate::specs::Shapes::setpoints_from))]
pub fn setpoints_from(s: Setting) -> Setpoints
    ensures { result ≡ setpoints_from s }
{
    Setpoints {
        consumption: target_of(s.consumption),
        production: target_of(s.production),
        duration: s.duration,
        cause: s.cause,
    }
}

// A duration of 0 is omitted, of limits and current limits.
pub fn duration_amount(d: u64) -> Option<u64>
    ensures { result ≡ duration_amount d }
{
    (d != 0).then_some(d)
}

// A setpoint field as a limit field: absent or a value, never null.
pub fn target_field(t: Option<i64>) -> Field
    ensures { result ≡ target_field t }
{
    t.map_or(Field::Absent, Field::Value)
}

// The parameters of SetLimit.
#[tactic(auto, unfolding(crate::specs::Shapes::setting_of_limits))]
pub fn setting_of_limits(l: Limits) -> Setting
    ensures { result ≡ setting_of_limits l }
{
    Setting {
        consumption: l.consumption,
        production: l.production,
        duration: duration_amount(l.duration),
        cause: l.cause,
    }
}

// The parameters of SetSetpoint, with the duration as it stands: a 0 is written.
#[tactic(auto, unfolding(crate::specs::Shapes::setting_of_setpoints))]
pub fn setting_of_setpoints(l: Setpoints) -> Setting
    ensures { result ≡ setting_of_setpoints l }
{
    Setting {
        consumption: target_field(l.consumption),
        production: target_field(l.production),
        duration: l.duration,
        cause: l.cause,
    }
}
