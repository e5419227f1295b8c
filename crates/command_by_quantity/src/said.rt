// A command seen by quantity: what it says of each, and its kind, aim and duration.
ghost use Rattle.std.specs.Prelude.{◌≡◌};
ghost use Rattle.device_store.specs.Quantities.{is_setpoint};
ghost use Rattle.command_by_quantity.specs.Says.{current_field, is_of, field_at, says, kind_of, is_set, aim_of, duration_of};

use command_fields::{aim_field, limit_field, phase_field, setpoint_duration, setpoint_field};
use device_store::{CURRENTS, LIMITS, direction_of, is_current, is_limit, phase_of};
use wire_messages::{Command, CurrentLimits, Field};

// What a command is about. Each kind is accepted or not by a setting of its own.
#[derive(Clone, Copy, PartialEq, Eq)]
pub enum Kind {
    Limits,
    Setpoints,
    Currents,
    Unserved,
}

// The field of its phase, where the quantity is of the direction that the map is of.
fn current_field(m: CurrentLimits, q: usize) -> Field
    ensures { result ≡ current_field m q }
{
    if direction_of(q) as u64 == m.direction {
        phase_field(m.phases, phase_of(q))
    } else {
        Field::Absent
    }
}

// The quantities behind the limits and before the currents.
fn is_setpoint(q: usize) -> bool
    ensures { result ≡ is_setpoint q }
{
    LIMITS <= q && q < CURRENTS
}

// The quantities that a kind is about.
fn is_of(k: Kind, q: usize) -> bool
    ensures { result ≡ is_of k q }
{
    match k {
        Kind::Limits => is_limit(q),
        Kind::Setpoints => is_setpoint(q),
        Kind::Currents => is_current(q),
        Kind::Unserved => false,
    }
}

// The field of a quantity of the command's kind.
fn field_at(c: Command, q: usize) -> Field
    ensures { result ≡ field_at c q }
{
    let d = direction_of(q) as u64;
    match c {
        Command::SetLimit(m) => limit_field(m, d),
        Command::SetSetpoint(m) => setpoint_field(m, d),
        Command::SetCurrentLimits(m) => current_field(m, q),
        Command::ClearLimit(a) | Command::ClearSetpoint(a) | Command::ClearCurrentLimits(a) => {
            aim_field(a, d)
        }
        Command::Unserved(_) => Field::Absent,
    }
}

// What a command says of quantity q: nothing, that it be removed, or a number.
#[tactic(auto, unfolding(crate::specs::Says::says))]
pub fn says(c: Command, q: usize) -> Field
    ensures { result ≡ says c q }
{
    if is_of(kind_of(c), q) {
        field_at(c, q)
    } else {
        Field::Absent
    }
}

// Which setting must accept the command.
pub fn kind_of(c: Command) -> Kind
    ensures { result ≡ kind_of c }
{
    match c {
        Command::SetLimit(_) | Command::ClearLimit(_) => Kind::Limits,
        Command::SetSetpoint(_) | Command::ClearSetpoint(_) => Kind::Setpoints,
        Command::SetCurrentLimits(_) | Command::ClearCurrentLimits(_) => Kind::Currents,
        Command::Unserved(_) => Kind::Unserved,
    }
}

// A Set command; the others clear.
pub fn is_set(c: Command) -> bool
    ensures { result ≡ is_set c }
{
    matches!(
        c,
        Command::SetLimit(_) | Command::SetSetpoint(_) | Command::SetCurrentLimits(_)
    )
}

// The direction that a clear or a map of phases names. The other Set commands name directions by their fields alone.
pub fn aim_of(c: Command) -> Option<u64>
    ensures { result ≡ aim_of c }
{
    match c {
        Command::ClearLimit(a) | Command::ClearSetpoint(a) | Command::ClearCurrentLimits(a) => a,
        Command::SetCurrentLimits(m) => Some(m.direction),
        Command::SetLimit(_) | Command::SetSetpoint(_) | Command::Unserved(_) => None,
    }
}

// How long what a command sets holds, 0 until replaced. An omitted duration is 0, but for a setpoint.
pub fn duration_of(c: Command) -> u64
    ensures { result ≡ duration_of c }
{
    match c {
        Command::SetLimit(m) => m.duration,
        Command::SetSetpoint(m) => setpoint_duration(m.duration),
        Command::SetCurrentLimits(m) => m.duration,
        _ => 0, // a clear sets nothing
    }
}
