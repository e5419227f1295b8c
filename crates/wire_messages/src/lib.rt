// Requests and responses as values: no bytes, no state.
// Numbers are wider here than on the wire, so that what is out of range can be handed to a writer and refused by it.
#![tactic(auto)]

mod set_parameters; // the parameters of a Set command as one shape: SetLimit and SetSetpoint are read into it and written from it
mod statuses; // which numbers a response may carry, and where its result stands

ghost use Rattle.std.specs.Prelude.{◌≡◌};
ghost use Rattle.wire_messages.specs.Numbers.{wire_number, served_command, served_at};

pub use set_parameters::{
    Setting, duration_amount, duration_of, limits_from, setpoints_from, setting_of_limits,
    setting_of_setpoints, target_field,
};
pub use statuses::{has_result, is_status};

// The one endpoint and feature that are served.
pub const ENDPOINT: u64 = 1;

pub const FEATURE: u64 = 5;

// The commands by their numbers on the wire.
pub const SET_LIMIT: u64 = 1;

pub const CLEAR_LIMIT: u64 = 2;

pub const SET_SETPOINT: u64 = 3;

pub const CLEAR_SETPOINT: u64 = 4;

pub const SET_CURRENT_LIMITS: u64 = 5;

pub const CLEAR_CURRENT_LIMITS: u64 = 6;

// The last of the commands that are served, from 1 on.
pub const COMMANDS: u64 = CLEAR_CURRENT_LIMITS;

// Whether a command's number is served.
#[tactic(auto, unfolding(crate::specs::Numbers::served_command))]
pub fn is_command(c: u64) -> bool
    ensures { result ≡ served_command c }
{
    (SET_LIMIT..=COMMANDS).contains(&c)
}

// Whether it is the served endpoint and feature.
#[tactic(auto, unfolding(crate::specs::Numbers::served_at))]
pub fn is_served(endpoint: u64, feature: u64) -> bool
    ensures { result ≡ served_at endpoint feature }
{
    endpoint == ENDPOINT && feature == FEATURE
}

// A limit field: absent leaves that direction, null removes this zone's limit, a value sets it.
#[derive(Clone, Copy)]
pub enum Field {
    Absent,
    Null,
    Value(i64),
}

// The parameters of SetLimit. An omitted duration is 0.
#[derive(Clone, Copy)]
pub struct Limits {
    pub consumption: Field,
    pub production: Field,
    pub duration: u64,
    pub cause: u64,
}

// The parameters of SetSetpoint. Its duration is as it stands on the wire: an omitted one is not 0.
#[derive(Clone, Copy)]
pub struct Setpoints {
    pub consumption: Option<i64>,
    pub production: Option<i64>,
    pub duration: Option<u64>,
    pub cause: u64,
}

// A field for each phase.
#[derive(Clone, Copy)]
pub struct Phases {
    pub a: Field,
    pub b: Field,
    pub c: Field,
}

// The parameters of SetCurrentLimits, all in one direction. An omitted duration is 0.
#[derive(Clone, Copy)]
pub struct CurrentLimits {
    pub phases: Phases,
    pub direction: u64,
    pub duration: u64,
    pub cause: u64,
}

// A command with its parameters, or the number of one that is not served.
#[derive(Clone, Copy)]
pub enum Command {
    SetLimit(Limits),
    ClearLimit(Option<u64>),
    SetSetpoint(Setpoints),
    ClearSetpoint(Option<u64>),
    SetCurrentLimits(CurrentLimits),
    ClearCurrentLimits(Option<u64>),
    Unserved(u64),
}

#[derive(Clone, Copy)]
pub struct Request {
    pub id: u64,
    pub endpoint: u64,
    pub feature: u64,
    pub command: Command,
}

// The result of SetLimit: the effective limits, and why it was refused or capped.
#[derive(Clone, Copy)]
pub struct LimitResult {
    pub applied: bool,
    pub state: u64,
    pub consumption: Option<u64>,
    pub production: Option<u64>,
    pub reason: Option<u64>,
}

// The result of SetSetpoint: the effective setpoints.
#[derive(Clone, Copy)]
pub struct SetpointResult {
    pub consumption: Option<u64>,
    pub production: Option<u64>,
}

// The result of SetCurrentLimits: the effective currents of its direction, for each phase.
#[derive(Clone, Copy)]
pub struct CurrentResult {
    pub a: Option<u64>,
    pub b: Option<u64>,
    pub c: Option<u64>,
}

// The result that stands in a response, if one does.
#[derive(Clone, Copy)]
pub enum Outcome {
    Nothing,
    Limit(LimitResult),
    Setpoint(SetpointResult),
    Current(CurrentResult),
    Success,
}

#[derive(Clone, Copy)]
pub struct Response {
    pub id: u64,
    pub status: u64,
    pub outcome: Outcome,
}

// The number by which a command goes on the wire.
pub fn wire_number(c: Command) -> u64
    ensures { result ≡ wire_number c }
{
    match c {
        Command::SetLimit(_) => SET_LIMIT,
        Command::ClearLimit(_) => CLEAR_LIMIT,
        Command::SetSetpoint(_) => SET_SETPOINT,
        Command::ClearSetpoint(_) => CLEAR_SETPOINT,
        Command::SetCurrentLimits(_) => SET_CURRENT_LIMITS,
        Command::ClearCurrentLimits(_) => CLEAR_CURRENT_LIMITS,
        Command::Unserved(n) => n,
    }
}
