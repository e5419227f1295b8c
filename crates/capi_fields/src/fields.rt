// One field of a request as C has it, from the kernel's and to it: a field of a Set command, what a clear names, a setpoint's duration.
ghost use Rattle.std.specs.Prelude.{◌≡◌, ◌&&◌};
ghost use Rattle.capi_fields.specs.Fields.{field_of, target_of, aim_of, setpoint_time, limit_kind, setpoint_kind};
ghost use Rattle.capi_fields.specs.Fields.{no_field, flat_field, flat_target, has_aim, aimed, time_of, is_omitted};

use wire_messages::Field;

// A field of a Set command: kind 0 is absent, 1 null, 2 the number `value`.
#[derive(Clone, Copy)]
pub struct FlatField {
    pub kind: u64,
    pub value: i64,
}

// A field from C: null, a number, or absent.
#[tactic(auto, unfolding(crate::specs::Fields::field_of))]
pub fn field_of(f: FlatField) -> Field
    ensures { result ≡ field_of f }
{
    match f.kind {
        1 => Field::Null,
        2 => Field::Value(f.value),
        _ => Field::Absent,
    }
}

// The same of a setpoint, which has no null.
#[tactic(auto, unfolding(crate::specs::Fields::target_of))]
pub fn target_of(f: FlatField) -> Option<i64>
    ensures { result ≡ target_of f }
{
    (f.kind == 2).then_some(f.value)
}

// What a clear names: one direction, or both.
#[tactic(auto, unfolding(crate::specs::Fields::aim_of))]
pub fn aim_of(has: bool, direction: u64) -> Option<u64>
    ensures { result ≡ aim_of has direction }
{
    has.then_some(direction)
}

// A duration that is to be left out, and is 0; any other is written, a 0 too.
#[tactic(auto, unfolding(crate::specs::Fields::setpoint_time))]
pub fn setpoint_time(omitted: bool, duration: u64) -> Option<u64>
    ensures { result ≡ setpoint_time omitted duration }
{
    if omitted && duration == 0 {
        return None;
    }
    Some(duration)
}

// Kinds that SetLimit's fields have.
#[tactic(auto, unfolding(crate::specs::Fields::limit_kind))]
pub fn are_limit_kinds(a: u64, b: u64) -> bool
    ensures { result ≡ (limit_kind a && limit_kind b) }
{
    a < 3 && b < 3
}

// Kinds that SetCurrentLimits' phases have.
#[tactic(auto, unfolding(crate::specs::Fields::limit_kind))]
pub fn are_phase_kinds(a: u64, b: u64, c: u64) -> bool
    ensures { result ≡ (limit_kind a && (limit_kind b && limit_kind c)) }
{
    a < 3 && b < 3 && c < 3
}

#[tactic(auto, unfolding(crate::specs::Fields::setpoint_kind))]
fn is_setpoint_kind(k: u64) -> bool
    ensures { result ≡ setpoint_kind k }
{
    k == 0 || k == 2
}

// Kinds that SetSetpoint's fields have: no null.
pub fn are_setpoint_kinds(a: u64, b: u64) -> bool
    ensures { result ≡ (setpoint_kind a && setpoint_kind b) }
{
    is_setpoint_kind(a) && is_setpoint_kind(b)
}

// An absent field for C.
pub fn no_field() -> FlatField
    ensures { result ≡ no_field }
{
    FlatField { kind: 0, value: 0 }
}

// A field for C.
#[tactic(auto, unfolding(crate::specs::Fields::flat_field))]
pub fn flat_field(f: Field) -> FlatField
    ensures { result ≡ flat_field f }
{
    match f {
        Field::Absent => no_field(),
        Field::Null => FlatField { kind: 1, value: 0 },
        Field::Value(value) => FlatField { kind: 2, value },
    }
}

// A setpoint's field for C.
#[tactic(auto, unfolding(crate::specs::Fields::flat_target))]
pub fn flat_target(f: Option<i64>) -> FlatField
    ensures { result ≡ flat_target f }
{
    match f {
        None => no_field(),
        Some(value) => FlatField { kind: 2, value },
    }
}

// Whether a clear names a direction, and which.
pub fn has_aim(a: Option<u64>) -> bool
    ensures { result ≡ has_aim a }
{
    a.is_some()
}

pub fn aimed(a: Option<u64>) -> u64
    ensures { result ≡ aimed a }
{
    a.unwrap_or(0)
}

// A setpoint's duration as a number, 0 where it is left out.
pub fn time_of(a: Option<u64>) -> u64
    ensures { result ≡ time_of a }
{
    a.unwrap_or(0)
}

// Whether a setpoint's duration is left out.
pub fn is_omitted(a: Option<u64>) -> bool
    ensures { result ≡ is_omitted a }
{
    a.is_none()
}
