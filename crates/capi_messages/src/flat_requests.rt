// Requests: flat structs of numbers, and the kernel's requests from them and to them.
ghost use Rattle.std.specs.Prelude.{◌≡◌};
ghost use Rattle.wire_messages.specs.declared.Command.{Command};
ghost use Rattle.capi_messages.specs.Requests.{limits_of, setpoints_of, phases_of, currents_of, command_of, request_of};
ghost use Rattle.capi_messages.specs.Requests.{flat_clear, flat_request, request_in, request_words, request_values};

use capi_fields::{
    FlatField, aim_of, aimed, are_limit_kinds, are_phase_kinds, are_setpoint_kinds, field_of,
    flat_field, flat_target, has_aim, is_omitted, is_yes, no_field, setpoint_time, target_of,
    time_of, word_of,
};
use wire_messages::{
    CLEAR_CURRENT_LIMITS, CLEAR_LIMIT, CLEAR_SETPOINT, Command, CurrentLimits, Limits, Phases,
    Request, SET_CURRENT_LIMITS, SET_LIMIT, SET_SETPOINT, Setpoints,
};

// Words of a request: id, endpoint, feature, command, the fields' kinds, duration, cause, directed, direction, the phases' kinds, omitted.
pub const REQUEST: usize = 14;

// The fields' values: consumption, production, and the phases A, B, C.
pub const FIELDS: usize = 5;

// SetLimit and SetSetpoint use consumption and production, SetCurrentLimits a, b, c and the direction, all three duration and
// cause; clears what is directed. A SetSetpoint's duration may be omitted; it is then 0 here.
#[derive(Clone, Copy)]
pub struct FlatRequest {
    pub id: u64,
    pub endpoint: u64,
    pub feature: u64,
    pub command: u64,
    pub consumption: FlatField,
    pub production: FlatField,
    pub duration: u64,
    pub cause: u64,
    pub directed: bool,
    pub direction: u64,
    pub a: FlatField,
    pub b: FlatField,
    pub c: FlatField,
    pub omitted: bool,
}

#[tactic(auto, unfolding(crate::specs::Requests::limits_of))]
fn limits_of(q: FlatRequest) -> Limits
    ensures { result ≡ limits_of q }
{
    Limits {
        consumption: field_of(q.consumption),
        production: field_of(q.production),
        duration: q.duration,
        cause: q.cause,
    }
}

#[tactic(auto, unfolding(crate::specs::Requests::setpoints_of))]
fn setpoints_of(q: FlatRequest) -> Setpoints
    ensures { result ≡ setpoints_of q }
{
    Setpoints {
        consumption: target_of(q.consumption),
        production: target_of(q.production),
        duration: setpoint_time(q.omitted, q.duration),
        cause: q.cause,
    }
}

// Apart from `current_of` of a response: three fields of another type, and no word is saved by one function of both.
#[tactic(auto, unfolding(crate::specs::Requests::phases_of))]
fn phases_of(q: FlatRequest) -> Phases
    ensures { result ≡ phases_of q }
{
    Phases {
        a: field_of(q.a),
        b: field_of(q.b),
        c: field_of(q.c),
    }
}

#[tactic(auto, unfolding(crate::specs::Requests::currents_of))]
fn currents_of(q: FlatRequest) -> CurrentLimits
    ensures { result ≡ currents_of q }
{
    CurrentLimits {
        phases: phases_of(q),
        direction: q.direction,
        duration: q.duration,
        cause: q.cause,
    }
}

// The number of a command that no wire holds.
const NO_COMMAND: u64 = 65536;

// A kind that the command does not have makes a command that no wire holds.
#[tactic(auto, unfolding(crate::specs::Requests::command_of, crate::specs::Requests::current_command))]
fn command_of(q: FlatRequest) -> Command
    ensures { result ≡ command_of q }
{
    let (a, b) = (q.consumption.kind, q.production.kind);
    let aim = aim_of(q.directed, q.direction);
    match q.command {
        SET_LIMIT if are_limit_kinds(a, b) => Command::SetLimit(limits_of(q)),
        CLEAR_LIMIT => Command::ClearLimit(aim),
        SET_SETPOINT if are_setpoint_kinds(a, b) => Command::SetSetpoint(setpoints_of(q)),
        CLEAR_SETPOINT => Command::ClearSetpoint(aim),
        SET_CURRENT_LIMITS if are_phase_kinds(q.a.kind, q.b.kind, q.c.kind) => {
            Command::SetCurrentLimits(currents_of(q))
        }
        CLEAR_CURRENT_LIMITS => Command::ClearCurrentLimits(aim),
        SET_LIMIT | SET_SETPOINT | SET_CURRENT_LIMITS => Command::Unserved(NO_COMMAND),
        n => Command::Unserved(n),
    }
}

#[tactic(auto, unfolding(crate::specs::Requests::request_of))]
pub fn request_of(q: FlatRequest) -> Request
    ensures { result ≡ request_of q }
{
    Request {
        id: q.id,
        endpoint: q.endpoint,
        feature: q.feature,
        command: command_of(q),
    }
}

// A request with no parameters but what a clear names.
#[tactic(auto, unfolding(crate::specs::Requests::flat_clear))]
fn flat_clear(r: Request, command: u64, a: Option<u64>) -> FlatRequest
    ensures { result ≡ flat_clear r command a }
{
    FlatRequest {
        id: r.id,
        endpoint: r.endpoint,
        feature: r.feature,
        command,
        consumption: no_field(),
        production: no_field(),
        duration: 0,
        cause: 0,
        directed: has_aim(a),
        direction: aimed(a),
        a: no_field(),
        b: no_field(),
        c: no_field(),
        omitted: false,
    }
}

#[tactic(auto, unfolding(crate::specs::Requests::flat_request, crate::specs::Requests::flat_set, crate::specs::Requests::flat_clear))]
fn flat_limits(r: Request, m: Limits) -> FlatRequest
    ensures { result ≡ flat_request r (Command.SetLimit m) }
{
    FlatRequest {
        consumption: flat_field(m.consumption),
        production: flat_field(m.production),
        duration: m.duration,
        cause: m.cause,
        ..flat_clear(r, SET_LIMIT, None)
    }
}

#[tactic(auto, unfolding(crate::specs::Requests::flat_request, crate::specs::Requests::flat_set, crate::specs::Requests::flat_clear))]
fn flat_setpoints(r: Request, m: Setpoints) -> FlatRequest
    ensures { result ≡ flat_request r (Command.SetSetpoint m) }
{
    FlatRequest {
        consumption: flat_target(m.consumption),
        production: flat_target(m.production),
        duration: time_of(m.duration),
        omitted: is_omitted(m.duration),
        cause: m.cause,
        ..flat_clear(r, SET_SETPOINT, None)
    }
}

#[tactic(auto, unfolding(crate::specs::Requests::flat_request, crate::specs::Requests::flat_currents, crate::specs::Requests::flat_clear))]
fn flat_currents(r: Request, m: CurrentLimits) -> FlatRequest
    ensures { result ≡ flat_request r (Command.SetCurrentLimits m) }
{
    FlatRequest {
        duration: m.duration,
        cause: m.cause,
        direction: m.direction,
        a: flat_field(m.phases.a),
        b: flat_field(m.phases.b),
        c: flat_field(m.phases.c),
        ..flat_clear(r, SET_CURRENT_LIMITS, None)
    }
}

#[tactic(auto, unfolding(crate::specs::Requests::flat_request))]
pub fn flat_request(r: Request, c: Command) -> FlatRequest
    ensures { result ≡ flat_request r c }
{
    match c {
        Command::SetLimit(m) => flat_limits(r, m),
        Command::ClearLimit(a) => flat_clear(r, CLEAR_LIMIT, a),
        Command::SetSetpoint(m) => flat_setpoints(r, m),
        Command::ClearSetpoint(a) => flat_clear(r, CLEAR_SETPOINT, a),
        Command::SetCurrentLimits(m) => flat_currents(r, m),
        Command::ClearCurrentLimits(a) => flat_clear(r, CLEAR_CURRENT_LIMITS, a),
        Command::Unserved(n) => flat_clear(r, n, None),
    }
}

// A flat request from its words and values.
#[tactic(auto, unfolding(crate::specs::Requests::request_in))]
pub fn request_in(w: [u64; REQUEST], v: [i64; FIELDS]) -> FlatRequest
    ensures { result ≡ request_in w v }
{
    FlatRequest {
        id: w[0],
        endpoint: w[1],
        feature: w[2],
        command: w[3],
        consumption: FlatField {
            kind: w[4],
            value: v[0],
        },
        production: FlatField {
            kind: w[5],
            value: v[1],
        },
        duration: w[6],
        cause: w[7],
        directed: is_yes(w[8]),
        direction: w[9],
        a: FlatField {
            kind: w[10],
            value: v[2],
        },
        b: FlatField {
            kind: w[11],
            value: v[3],
        },
        c: FlatField {
            kind: w[12],
            value: v[4],
        },
        omitted: is_yes(w[13]),
    }
}

#[tactic(auto, unfolding(crate::specs::Requests::request_words))]
pub fn request_words(q: FlatRequest) -> [u64; REQUEST]
    ensures { result ≡ request_words q }
{
    [
        q.id,
        q.endpoint,
        q.feature,
        q.command,
        q.consumption.kind,
        q.production.kind,
        q.duration,
        q.cause,
        word_of(q.directed),
        q.direction,
        q.a.kind,
        q.b.kind,
        q.c.kind,
        word_of(q.omitted),
    ]
}

#[tactic(auto, unfolding(crate::specs::Requests::request_values))]
pub fn request_values(q: FlatRequest) -> [i64; FIELDS]
    ensures { result ≡ request_values q }
{
    [
        q.consumption.value,
        q.production.value,
        q.a.value,
        q.b.value,
        q.c.value,
    ]
}
