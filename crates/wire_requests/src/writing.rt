// Requests, written.
ghost use Rattle.std.specs.Prelude.{◌≡◌, ◌+◌, length};
ghost use Rattle.wire_cbor.specs.Item.{encode, encode_pairs, count_pairs};
ghost use Rattle.wire_fields.specs.Fields.{present};
ghost use Rattle.wire_requests.specs.WrittenRequests.{command_fields, request_item, amount_wide, command_wide, is_served, request_wide, request_number};
ghost use Rattle.wire_fields.specs.Puts.{Puts, field_bytes};
ghost use Rattle.wire_fields.specs.ByPhase.{phases_item, phases_room};
ghost use Rattle.wire_requests.specs.WrittenSettings.{setting_fields, current_limit_fields};
ghost use Rattle.wire_requests.specs.Sizes.{params_room, payload_room};
ghost use Rattle.wire_output.specs.Writing.{item_frame, written_of, left_by};

use crate::lengths::ROOM;
use refusals::{BAD_MESSAGE, NOT_SERVED};
use wire_fields::{
    MOST32, count_amount, count_phases, count_value, field_key_head, put_amount, put_map,
    put_phases, put_uint, put_value,
};
use wire_messages::{
    Command, CurrentLimits, Phases, Request, Setting, duration_amount, is_served,
    setting_of_limits, setting_of_setpoints,
};
use wire_output::{Written, refused, write_frame};

fn count_setting(s: Setting) -> u64
    ensures { result ≡ count_pairs (present (setting_fields s)) }
{
    count_value(s.consumption) + count_value(s.production) + count_amount(s.duration) + 1
}

// The map of phases, the direction and the cause are always there.
fn count_current_limits(l: CurrentLimits) -> u64
    ensures { result ≡ count_pairs (present (current_limit_fields l)) }
{
    3 + count_amount(duration_amount(l.duration))
}

// How many pairs the parameters of a command are.
fn count_command(c: Command) -> u64
    ensures { result ≡ count_pairs (present (command_fields c)) }
{
    match c {
        Command::SetLimit(l) => count_setting(setting_of_limits(l)),
        Command::SetSetpoint(l) => count_setting(setting_of_setpoints(l)),
        Command::SetCurrentLimits(l) => count_current_limits(l),
        Command::ClearLimit(a) | Command::ClearSetpoint(a) | Command::ClearCurrentLimits(a) => {
            count_amount(a)
        }
        Command::Unserved(_) => 0,
    }
}

fn put_setting(out: &mut [u8], at: usize, s: Setting) -> usize
    ensures { Puts out.old at (encode_pairs (present (setting_fields s))) params_room out.new result }
{
    let after_c = put_value(out, at, 1, s.consumption);
    let after_p = put_value(out, after_c, 2, s.production);
    let after_d = put_amount(out, after_p, 3, s.duration);
    put_uint(out, after_d, 4, s.cause)
}

// The map of phases, under key 1.
fn put_fields(out: &mut [u8], at: usize, p: Phases) -> usize
    ensures { Puts out.old at (field_bytes 1 (phases_item p)) phases_room out.new result }
{
    let a = field_key_head(p.a);
    let b = field_key_head(p.b);
    let c = field_key_head(p.c);
    let head = put_map(out, at, 1, count_phases(a, b, c));
    put_phases(out, head, a, b, c)
}

fn put_current_limits(out: &mut [u8], at: usize, l: CurrentLimits) -> usize
    ensures { Puts out.old at (encode_pairs (present (current_limit_fields l))) params_room out.new result }
{
    let after_f = put_fields(out, at, l.phases);
    let after_x = put_uint(out, after_f, 2, l.direction);
    let after_d = put_amount(out, after_x, 3, duration_amount(l.duration));
    put_uint(out, after_d, 4, l.cause)
}

// The parameters' pairs.
fn put_command(out: &mut [u8], at: usize, c: Command) -> usize
    ensures { Puts out.old at (encode_pairs (present (command_fields c))) params_room out.new result }
{
    match c {
        Command::SetLimit(l) => put_setting(out, at, setting_of_limits(l)),
        Command::SetSetpoint(l) => put_setting(out, at, setting_of_setpoints(l)),
        Command::SetCurrentLimits(l) => put_current_limits(out, at, l),
        Command::ClearLimit(a) | Command::ClearSetpoint(a) | Command::ClearCurrentLimits(a) => {
            put_amount(out, at, 1, a)
        }
        Command::Unserved(_) => at,
    }
}

// The payload of a request.
fn put_request(out: &mut [u8], r: Request) -> usize
    ensures { Puts out.old 0 (encode (request_item r)) payload_room out.new result }
{
    let a = wire_heads::put_head(out, 0, 5, 5);
    let b = put_uint(out, a, 1, r.id);
    let c = put_uint(out, b, 2, r.endpoint);
    let d = put_uint(out, c, 3, r.feature);
    let e = put_uint(out, d, 4, wire_messages::wire_number(r.command));
    let f = put_map(out, e, 5, count_command(r.command));
    put_command(out, f, r.command)
}

// Whether an amount is there and is more than `most`.
fn amount_wide(most: u64, a: Option<u64>) -> bool
    ensures { result ≡ amount_wide most a }
{
    a.is_some_and(|v| most < v)
}

// Whether a number of the command is out of the wire's range.
#[tactic(auto, unfolding(crate::specs::WrittenRequests::command_wide))]
fn command_wide(c: Command) -> bool
    ensures { result ≡ command_wide c }
{
    match c {
        Command::SetLimit(l) => MOST32 < l.duration || 255 < l.cause,
        Command::SetSetpoint(l) => amount_wide(MOST32, l.duration) || 255 < l.cause,
        Command::SetCurrentLimits(l) => 1 < l.direction || MOST32 < l.duration || 255 < l.cause,
        Command::ClearLimit(a) | Command::ClearSetpoint(a) | Command::ClearCurrentLimits(a) => {
            amount_wide(1, a)
        }
        Command::Unserved(n) => 65535 < n,
    }
}

fn has_parameters(c: Command) -> bool
    ensures { result ≡ is_served c }
{
    !matches!(c, Command::Unserved(_))
}

#[tactic(auto, unfolding(crate::specs::WrittenRequests::request_wide))]
fn request_wide(r: Request) -> bool
    ensures { result ≡ request_wide r }
{
    MOST32 < r.id || 255 < r.endpoint || 65535 < r.feature || command_wide(r.command)
}

// The refusal of a request, whatever the room: 3, then 4.
#[tactic(auto, unfolding(crate::specs::WrittenRequests::request_number, crate::specs::WrittenRequests::request_unserved, refusals::specs::Refusals::first_of))]
fn request_number(r: Request) -> u64
    ensures { result ≡ request_number r }
{
    if request_wide(r) {
        return BAD_MESSAGE;
    }
    if is_served(r.endpoint, r.feature) && has_parameters(r.command) {
        return 0;
    }
    NOT_SERVED
}

// Writes a request's frame to the front of `out`.
pub fn write_request(out: &mut [u8], r: Request) -> Written
    ensures value { result ≡ written_of (request_number r) (item_frame (request_item r)) (length out.old) }
    ensures out_after { out.new ≡ left_by (request_number r) (item_frame (request_item r)) out.old }
{
    let number = request_number(r);
    if number != 0 {
        return refused(number);
    }
    let mut payload = [0u8; ROOM];
    let n = put_request(&mut payload, r);
    write_frame(out, &payload[..n])
}
