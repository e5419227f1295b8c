// Requests, read.
ghost use Rattle.std.specs.Prelude.{◌≡◌};
ghost use Rattle.wire_cbor.specs.Item.{payload_of};
ghost use Rattle.wire_cbor.specs.Scan.{key_head_at};
ghost use Rattle.wire_fields.specs.Seen.{uint_read};
ghost use Rattle.wire_requests.specs.Requests.{from_payload, read_request};
ghost use Rattle.wire_requests.specs.Seen.{envelope_seen, setting_seen, current_limits_seen, clear_seen, command_seen, message_seen};

use refusals::{BAD_CBOR, BAD_LENGTH, BAD_MESSAGE};
use wire_cbor::{KeyHeads, key_head_of};
use wire_fields::{MOST32, is_map, is_uint, read_amount, read_phases, read_uint, read_value};
use wire_messages::{
    CLEAR_LIMIT, CLEAR_SETPOINT, Command, CurrentLimits, Request, SET_CURRENT_LIMITS, SET_LIMIT,
    SET_SETPOINT, Setting, duration_of, is_command, is_served, limits_from, setpoints_from,
};
use wire_prefix::{PREFIX, is_framed};

// A request; the message id of one that is not served; a refusal number. Three ways of one answer: a Result would put two of them side by side as errors.
#[derive(Clone, Copy)]
pub enum Reading {
    Is(Request),
    Unserved(u64),
    Refused(u64),
}

// The levels that are looked into: the payload's map, the parameters under its key 5, the phases under key 1 of these.
const ENVELOPE: usize = 0;

const PARAMETERS: usize = 1;

const PHASES: usize = 2;

// The keys along that path, the first as the lowest digit: 5, then 1.
const PATH: u64 = 5 + 1 * wire_cbor::STEP;

// Whether the envelope is there: the parameters are a map, seen below. By `&`: a board's code is 450 bytes shorter than by `&&`.
#[tactic(auto, unfolding(crate::specs::Seen::envelope_seen))]
fn is_envelope(heads: &KeyHeads) -> bool
    ensures { result ≡ envelope_seen heads.now }
{
    is_uint(key_head_of(heads, ENVELOPE, 1), true, MOST32)
        & is_uint(key_head_of(heads, ENVELOPE, 2), true, 255)
        & is_uint(key_head_of(heads, ENVELOPE, 3), true, 65535)
        & is_uint(key_head_of(heads, ENVELOPE, 4), true, 65535)
        & is_map(key_head_of(heads, ENVELOPE, 5))
}

// The cause, which each Set command has under the same key.
#[tactic(auto, unfolding(wire_fields::specs::Seen::uint_read))]
fn read_cause(heads: &KeyHeads) -> Option<u64>
    ensures { result ≡ uint_read 255 (key_head_at heads.now 1 4) }
{
    let k = key_head_of(heads, PARAMETERS, 4);
    is_uint(k, true, 255).then_some(k.arg)
}

// The parameters of a Set command, with null or without; `None` is refusal 3, here and below.
#[tactic(auto, unfolding(crate::specs::Seen::setting_seen))]
fn read_setting(heads: &KeyHeads, null: bool) -> Option<Setting>
    ensures { result ≡ setting_seen null heads.now }
{
    Some(Setting {
        consumption: read_value(key_head_of(heads, PARAMETERS, 1), null)?,
        production: read_value(key_head_of(heads, PARAMETERS, 2), null)?,
        duration: read_amount(key_head_of(heads, PARAMETERS, 3), MOST32)?,
        cause: read_cause(heads)?,
    })
}

// The parameters of SetCurrentLimits.
#[tactic(auto, unfolding(crate::specs::Seen::current_limits_seen))]
fn read_current_limits(heads: &KeyHeads) -> Option<CurrentLimits>
    ensures { result ≡ current_limits_seen heads.now }
{
    let phases = read_phases(
        key_head_of(heads, PARAMETERS, 1),
        key_head_of(heads, PHASES, 0),
        key_head_of(heads, PHASES, 1),
        key_head_of(heads, PHASES, 2),
        true,
    )?;
    Some(CurrentLimits {
        phases,
        direction: read_uint(key_head_of(heads, PARAMETERS, 2), 1)?,
        duration: duration_of(read_amount(key_head_of(heads, PARAMETERS, 3), MOST32)?),
        cause: read_cause(heads)?,
    })
}

// The parameters of a served command.
#[tactic(auto, unfolding(crate::specs::Seen::command_seen))]
fn read_command(heads: &KeyHeads, command: u64) -> Option<Command>
    ensures { result ≡ command_seen heads.now command }
{
    match command {
        SET_LIMIT | SET_SETPOINT => {
            let limit = command == SET_LIMIT;
            let setting = read_setting(heads, limit)?;
            Some(if limit {
                Command::SetLimit(limits_from(setting))
            } else {
                Command::SetSetpoint(setpoints_from(setting))
            })
        }
        SET_CURRENT_LIMITS => {
            let limits = read_current_limits(heads)?;
            Some(Command::SetCurrentLimits(limits))
        }
        _ => read_clear(heads, command),
    }
}

// The parameters of a clear.
#[tactic(auto, unfolding(crate::specs::Seen::clear_seen))]
fn read_clear(heads: &KeyHeads, command: u64) -> Option<Command>
    ensures { result ≡ clear_seen heads.now command }
{
    let aim = read_amount(key_head_of(heads, PARAMETERS, 1), 1)?;
    match command {
        CLEAR_LIMIT => Some(Command::ClearLimit(aim)),
        CLEAR_SETPOINT => Some(Command::ClearSetpoint(aim)),
        _ => Some(Command::ClearCurrentLimits(aim)),
    }
}

// What is seen in a payload, in the order envelope 3, 4, parameters 3.
#[tactic(auto, unfolding(crate::specs::Seen::message_seen))]
fn read_message(heads: &KeyHeads) -> Reading
    ensures { result ≡ message_seen heads.now }
{
    if !is_envelope(heads) {
        return Reading::Refused(BAD_MESSAGE);
    }
    let id = key_head_of(heads, ENVELOPE, 1).arg;
    let endpoint = key_head_of(heads, ENVELOPE, 2).arg;
    let feature = key_head_of(heads, ENVELOPE, 3).arg;
    let number = key_head_of(heads, ENVELOPE, 4).arg;
    if !(is_served(endpoint, feature) && is_command(number)) {
        return Reading::Unserved(id);
    }
    match read_command(heads, number) {
        Some(command) => Reading::Is(Request {
            id,
            endpoint,
            feature,
            command,
        }),
        None => Reading::Refused(BAD_MESSAGE),
    }
}

// The request that a payload holds. By hand, as wire_responses scans its own: a shared closure over the lent heads would be longer than these lines.
pub fn read_payload(payload: &[u8]) -> Reading
    ensures { result ≡ from_payload (payload_of payload.now) }
{
    let mut heads = [0u64; wire_cbor::WORDS];
    if wire_cbor::scan(payload, PATH, &mut heads) {
        return read_message(&heads);
    }
    Reading::Refused(BAD_CBOR)
}

// The request that a frame holds.
pub fn read_request(frame: &[u8]) -> Reading
    ensures { result ≡ read_request frame.now }
{
    if is_framed(frame) {
        return read_payload(&frame[PREFIX..]);
    }
    Reading::Refused(BAD_LENGTH)
}
