// Responses, read.
ghost use Rattle.std.specs.Prelude.{◌≡◌};
ghost use Rattle.wire_responses.specs.Responses.{answer_from, read_response};
ghost use Rattle.wire_responses.specs.Seen.{limit_result_seen, setpoint_result_seen, current_result_seen, outcome_seen, result_seen, status_seen, response_seen};

use refusals::{BAD_CBOR, BAD_LENGTH, BAD_MESSAGE, NOT_SERVED};
use wire_cbor::{KeyHeads, key_head_of};
use wire_fields::{
    MOST_VALUE, MOST32, is_map, is_success, read_amount, read_currents, read_truth, read_uint,
};
use wire_messages::{
    CurrentResult, LimitResult, Outcome, Response, SET_CURRENT_LIMITS, SET_LIMIT, SET_SETPOINT,
    SetpointResult, has_result, is_command, is_status,
};
use wire_prefix::{PREFIX, is_framed};

// A response, or a refusal number.
#[derive(Clone, Copy)]
pub enum Answer {
    Is(Response),
    Refused(u64),
}

// The levels that are looked into: the payload's map, the result under its key 3, and the map of phases under the result's key 2.
const ANSWER: usize = 0;

const RESULT: usize = 1;

const PHASES: usize = 2;

// The keys along that path, the first as the lowest digit: 3, then 2.
const PATH: u64 = 3 + 2 * wire_cbor::STEP;

// What is seen where nothing is.
const NOTHING: u64 = 8;

// The result of SetLimit; `None` is refusal 3, here and below.
#[tactic(auto, unfolding(crate::specs::Seen::limit_result_seen))]
fn read_limit(heads: &KeyHeads) -> Option<LimitResult>
    ensures { result ≡ limit_result_seen heads.now }
{
    Some(LimitResult {
        applied: read_truth(key_head_of(heads, RESULT, 1))?,
        state: read_uint(key_head_of(heads, RESULT, 2), 4)?,
        consumption: read_amount(key_head_of(heads, RESULT, 3), MOST_VALUE)?,
        production: read_amount(key_head_of(heads, RESULT, 4), MOST_VALUE)?,
        reason: read_amount(key_head_of(heads, RESULT, 5), 4)?,
    })
}

// The result of SetSetpoint.
#[tactic(auto, unfolding(crate::specs::Seen::setpoint_result_seen))]
fn read_setpoint(heads: &KeyHeads) -> Option<SetpointResult>
    ensures { result ≡ setpoint_result_seen heads.now }
{
    if !is_success(key_head_of(heads, RESULT, 1)) {
        return None;
    }
    Some(SetpointResult {
        consumption: read_amount(key_head_of(heads, RESULT, 2), MOST_VALUE)?,
        production: read_amount(key_head_of(heads, RESULT, 3), MOST_VALUE)?,
    })
}

// The result of SetCurrentLimits.
#[tactic(auto, unfolding(crate::specs::Seen::current_result_seen))]
fn read_current(heads: &KeyHeads) -> Option<CurrentResult>
    ensures { result ≡ current_result_seen heads.now }
{
    if !is_success(key_head_of(heads, RESULT, 1)) {
        return None;
    }
    read_currents(
        key_head_of(heads, RESULT, 2),
        key_head_of(heads, PHASES, 0),
        key_head_of(heads, PHASES, 1),
        key_head_of(heads, PHASES, 2),
        MOST_VALUE,
    )
}

// The result of a served command.
#[tactic(auto, using(wire_fields::proofs::Given::then_some_is), unfolding(crate::specs::Seen::outcome_seen))]
fn read_outcome(heads: &KeyHeads, command: u64) -> Option<Outcome>
    ensures { result ≡ outcome_seen heads.now command }
{
    match command {
        SET_LIMIT => {
            let limit = read_limit(heads)?;
            Some(Outcome::Limit(limit))
        }
        SET_SETPOINT => {
            let setpoint = read_setpoint(heads)?;
            Some(Outcome::Setpoint(setpoint))
        }
        SET_CURRENT_LIMITS => {
            let current = read_current(heads)?;
            Some(Outcome::Current(current))
        }
        _ => is_success(key_head_of(heads, RESULT, 1)).then_some(Outcome::Success),
    }
}

// The result that stands at a status, or its absence.
#[tactic(auto, using(wire_fields::proofs::Given::then_some_is), unfolding(crate::specs::Seen::result_seen))]
fn read_result(heads: &KeyHeads, command: u64, status: u64) -> Option<Outcome>
    ensures { result ≡ result_seen heads.now command status }
{
    let result = key_head_of(heads, ANSWER, 3);
    if !has_result(command, status) {
        return (result.major == NOTHING).then_some(Outcome::Nothing);
    }
    if is_map(result) {
        read_outcome(heads, command)
    } else {
        None
    }
}

#[tactic(auto, using(wire_fields::proofs::Given::then_some_is), unfolding(crate::specs::Seen::status_seen))]
fn read_status(heads: &KeyHeads) -> Option<u64>
    ensures { result ≡ status_seen heads.now }
{
    let status = read_uint(key_head_of(heads, ANSWER, 2), 14)?;
    is_status(status).then_some(status)
}

// What is seen in a payload.
#[tactic(auto, unfolding(crate::specs::Seen::response_seen))]
fn read_body(heads: &KeyHeads, command: u64) -> Option<Response>
    ensures { result ≡ response_seen heads.now command }
{
    let id = read_uint(key_head_of(heads, ANSWER, 1), MOST32)?;
    let status = read_status(heads)?;
    let outcome = read_result(heads, command, status)?;
    Some(Response {
        id,
        status,
        outcome,
    })
}

// The response that a frame holds, to a command that the caller names.
pub fn read_response(command: u64, frame: &[u8]) -> Answer
    ensures { result ≡ read_response command frame.now }
{
    if is_command(command) {
        return read_answer(command, frame);
    }
    Answer::Refused(NOT_SERVED)
}

// The response to a served command. By hand, as wire_requests scans its own: a shared closure over the lent heads would be longer than these lines.
fn read_answer(command: u64, frame: &[u8]) -> Answer
    ensures { result ≡ answer_from command frame.now }
{
    if !is_framed(frame) {
        return Answer::Refused(BAD_LENGTH);
    }
    let payload = &frame[PREFIX..];
    let mut heads = [0u64; wire_cbor::WORDS];
    if !wire_cbor::scan(payload, PATH, &mut heads) {
        return Answer::Refused(BAD_CBOR);
    }
    match read_body(&heads, command) {
        Some(response) => Answer::Is(response),
        None => Answer::Refused(BAD_MESSAGE),
    }
}
