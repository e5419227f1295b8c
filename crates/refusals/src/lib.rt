// Document 01's numbers by name, for every room: why a call is refused, the control states, and the reject reasons of SetLimit.
// 0 is a call that is accepted. The C header's CEKARUM_* are the same numbers.
#![tactic(auto)]

mod refusal; // refusal.rt: why a call is refused, by name

pub use refusal::{Refusal, number_in};

// REFUSALS by their numbers
pub const BAD_LENGTH: u64 = Refusal::BadLength as u64;

pub const BAD_CBOR: u64 = Refusal::BadCbor as u64;

pub const BAD_MESSAGE: u64 = Refusal::BadMessage as u64;

pub const NOT_SERVED: u64 = Refusal::NotServed as u64;

pub const BAD_TIME: u64 = Refusal::BadTime as u64;

pub const BAD_ZONE: u64 = Refusal::BadZone as u64;

pub const ALREADY: u64 = Refusal::Already as u64;

pub const FULL: u64 = Refusal::Full as u64;

pub const NOT_JOINED: u64 = Refusal::NotJoined as u64;

pub const LINK_DOWN: u64 = Refusal::LinkDown as u64;

pub const NOT_SUPPORTED: u64 = Refusal::NotSupported as u64;

pub const OVERRIDDEN: u64 = Refusal::Overridden as u64;

pub const BAD_VALUE: u64 = Refusal::BadValue as u64;

pub const BELOW_MINIMUM: u64 = Refusal::BelowMinimum as u64;

pub const NO_SPACE: u64 = Refusal::NoSpace as u64;

pub const BAD_SETTINGS: u64 = Refusal::BadSettings as u64;

pub const NOT_ASCENDING: u64 = Refusal::NotAscending as u64;

pub const BAD_OVERRIDE: u64 = Refusal::BadOverride as u64;

// CONTROL STATES, as they are shown beside the values
pub const AUTONOMOUS: i64 = 0;

pub const CONTROLLED: i64 = 1;

pub const LIMITED: i64 = 2;

pub const FAILSAFE: i64 = 3;

pub const OVERRIDE: i64 = 4;

// REJECT REASONS of SetLimit
// beside 14
pub const REASON_BELOW_MINIMUM: u64 = 0;

// the limit is stored as the contractual maximum, and the number is 0
pub const REASON_ABOVE_CONTRACTUAL: u64 = 1;

// beside 13
pub const REASON_INVALID: u64 = 2;

// beside 12
pub const REASON_OVERRIDE: u64 = 3;

// beside 11
pub const REASON_NOT_SUPPORTED: u64 = 4;
