// Responses, written.
ghost use Rattle.std.specs.Prelude.{◌≡◌, ◌+◌, length};
ghost use Rattle.wire_cbor.specs.Item.{encode};
ghost use Rattle.wire_responses.specs.WrittenResponses.{limit_fields, setpoint_fields, current_fields, clear_fields, outcome_item, response_item, amount_up_to};
ghost use Rattle.wire_responses.specs.WrittenResponses.{limit_in_range, setpoint_in_range, current_in_range, goes_with, is_nothing, fits, response_number};
ghost use Rattle.wire_fields.specs.Fields.{map_item};
ghost use Rattle.wire_fields.specs.Puts.{Puts, field_bytes, pairs_of};
ghost use Rattle.wire_fields.specs.ByPhase.{currents_item, phases_room};
ghost use Rattle.wire_responses.specs.Sizes.{outcome_room, payload_room};
ghost use Rattle.wire_output.specs.Writing.{item_frame, written_of, left_by};

use crate::lengths::ROOM;
use refusals::{BAD_MESSAGE, NOT_SERVED};
use wire_fields::{
    MOST_VALUE, MOST32, amount_key_head, count_amount, count_phases, put_amount, put_map,
    put_phases, put_truth, put_uint,
};
use wire_messages::{
    CLEAR_CURRENT_LIMITS, CLEAR_LIMIT, CLEAR_SETPOINT, CurrentResult, LimitResult, Outcome,
    Response, SET_CURRENT_LIMITS, SET_LIMIT, SET_SETPOINT, SetpointResult, has_result, is_command,
    is_status,
};
use wire_output::{Written, refused, write_frame};

// The result of SetLimit, under key 3.
fn put_limit(out: &mut [u8], at: usize, l: LimitResult) -> usize
    ensures { Puts out.old at (field_bytes 3 (map_item (limit_fields l))) outcome_room out.new result }
{
    let n = 2 + count_amount(l.consumption) + count_amount(l.production) + count_amount(l.reason);
    let a = put_map(out, at, 3, n);
    let b = put_truth(out, a, 1, l.applied);
    let c = put_uint(out, b, 2, l.state);
    let d = put_amount(out, c, 3, l.consumption);
    let e = put_amount(out, d, 4, l.production);
    put_amount(out, e, 5, l.reason)
}

// The result of SetSetpoint, under key 3.
fn put_setpoint(out: &mut [u8], at: usize, l: SetpointResult) -> usize
    ensures { Puts out.old at (field_bytes 3 (map_item (setpoint_fields l))) outcome_room out.new result }
{
    let n = 1 + count_amount(l.consumption) + count_amount(l.production);
    let a = put_map(out, at, 3, n);
    let b = put_truth(out, a, 1, true);
    let c = put_amount(out, b, 2, l.consumption);
    put_amount(out, c, 3, l.production)
}

// The map of the currents that hold, under key 2.
fn put_currents(out: &mut [u8], at: usize, l: CurrentResult) -> usize
    ensures { Puts out.old at (field_bytes 2 (currents_item l)) phases_room out.new result }
{
    let a = amount_key_head(l.a);
    let b = amount_key_head(l.b);
    let c = amount_key_head(l.c);
    let head = put_map(out, at, 2, count_phases(a, b, c));
    put_phases(out, head, a, b, c)
}

// The result of SetCurrentLimits, under key 3: its map of phases stands there even when empty.
fn put_current(out: &mut [u8], at: usize, l: CurrentResult) -> usize
    ensures { Puts out.old at (field_bytes 3 (map_item (current_fields l))) outcome_room out.new result }
{
    let a = put_map(out, at, 3, 2);
    let b = put_truth(out, a, 1, true);
    put_currents(out, b, l)
}

// The result of a clear, under key 3.
fn put_success(out: &mut [u8], at: usize) -> usize
    ensures { Puts out.old at (field_bytes 3 (map_item clear_fields)) outcome_room out.new result }
{
    let a = put_map(out, at, 3, 1);
    put_truth(out, a, 1, true)
}

fn put_outcome(out: &mut [u8], at: usize, o: Outcome) -> usize
    ensures { Puts out.old at (field_bytes 3 (outcome_item o)) outcome_room out.new result }
{
    match o {
        Outcome::Nothing => at,
        Outcome::Limit(l) => put_limit(out, at, l),
        Outcome::Setpoint(l) => put_setpoint(out, at, l),
        Outcome::Current(l) => put_current(out, at, l),
        Outcome::Success => put_success(out, at),
    }
}

#[tactic(auto, unfolding(crate::specs::WrittenResponses::outcome_item))]
fn count_outcome(o: Outcome) -> u64
    ensures { result ≡ pairs_of (outcome_item o) }
{
    u64::from(!matches!(o, Outcome::Nothing))
}

// The payload of a response.
fn put_response(out: &mut [u8], r: Response) -> usize
    ensures { Puts out.old 0 (encode (response_item r)) payload_room out.new result }
{
    let a = wire_heads::put_head(out, 0, 5, 2 + count_outcome(r.outcome));
    let b = put_uint(out, a, 1, r.id);
    let c = put_uint(out, b, 2, r.status);
    put_outcome(out, c, r.outcome)
}

fn amount_up_to(most: u64, a: Option<u64>) -> bool
    ensures { result ≡ amount_up_to most a }
{
    a.is_none_or(|v| v <= most)
}

#[tactic(auto, unfolding(crate::specs::WrittenResponses::limit_in_range))]
fn limit_in_range(l: LimitResult) -> bool
    ensures { result ≡ limit_in_range l }
{
    l.state <= 4
        && amount_up_to(MOST_VALUE, l.consumption)
        && amount_up_to(MOST_VALUE, l.production)
        && amount_up_to(4, l.reason)
}

#[tactic(auto, unfolding(crate::specs::WrittenResponses::setpoint_in_range))]
fn setpoint_in_range(l: SetpointResult) -> bool
    ensures { result ≡ setpoint_in_range l }
{
    amount_up_to(MOST_VALUE, l.consumption) && amount_up_to(MOST_VALUE, l.production)
}

#[tactic(auto, unfolding(crate::specs::WrittenResponses::current_in_range))]
fn current_in_range(l: CurrentResult) -> bool
    ensures { result ≡ current_in_range l }
{
    amount_up_to(MOST_VALUE, l.a) && amount_up_to(MOST_VALUE, l.b) && amount_up_to(MOST_VALUE, l.c)
}

// Whether it is a result of that command, its values in range.
#[tactic(auto, unfolding(crate::specs::WrittenResponses::goes_with))]
fn goes_with(command: u64, o: Outcome) -> bool
    ensures { result ≡ goes_with command o }
{
    match o {
        Outcome::Nothing => false,
        Outcome::Limit(l) => command == SET_LIMIT && limit_in_range(l),
        Outcome::Setpoint(l) => command == SET_SETPOINT && setpoint_in_range(l),
        Outcome::Current(l) => command == SET_CURRENT_LIMITS && current_in_range(l),
        Outcome::Success => {
            command == CLEAR_LIMIT || command == CLEAR_SETPOINT || command == CLEAR_CURRENT_LIMITS
        }
    }
}

fn is_nothing(o: Outcome) -> bool
    ensures { result ≡ is_nothing o }
{
    matches!(o, Outcome::Nothing)
}

#[tactic(auto, unfolding(crate::specs::WrittenResponses::fits))]
fn outcome_fits(command: u64, status: u64, o: Outcome) -> bool
    ensures { result ≡ fits command status o }
{
    if has_result(command, status) {
        goes_with(command, o)
    } else {
        is_nothing(o)
    }
}

// The refusal of a response, whatever the room: 4, then 3.
#[tactic(auto, unfolding(crate::specs::WrittenResponses::response_number, crate::specs::WrittenResponses::response_fits, refusals::specs::Refusals::first_of))]
fn response_number(command: u64, r: Response) -> u64
    ensures { result ≡ response_number command r }
{
    if !is_command(command) {
        return NOT_SERVED;
    }
    if r.id <= MOST32 && is_status(r.status) && outcome_fits(command, r.status, r.outcome) {
        return 0;
    }
    BAD_MESSAGE
}

// Writes a frame that holds a response, whatever its numbers.
pub fn frame_response(out: &mut [u8], r: Response) -> Written
    ensures value { result ≡ written_of 0 (item_frame (response_item r)) (length out.old) }
    ensures out_after { out.new ≡ left_by 0 (item_frame (response_item r)) out.old }
{
    let mut payload = [0u8; ROOM];
    let n = put_response(&mut payload, r);
    write_frame(out, &payload[..n])
}

// Writes a response to a command that the caller names, to the front of `out`.
pub fn write_response(out: &mut [u8], command: u64, r: Response) -> Written
    ensures value { result ≡ written_of (response_number command r) (item_frame (response_item r)) (length out.old) }
    ensures out_after { out.new ≡ left_by (response_number command r) (item_frame (response_item r)) out.old }
{
    let number = response_number(command, r);
    if number != 0 {
        return refused(number);
    }
    frame_response(out, r)
}
