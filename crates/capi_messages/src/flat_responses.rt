// Responses: flat structs of numbers, and the kernel's responses from them and to them.
ghost use Rattle.std.specs.Prelude.{◌≡◌, true, not, ◌||◌, eqb};
ghost use Rattle.wire_messages.specs.declared.Outcome.{Outcome};
ghost use Rattle.capi_messages.specs.Responses.{limit_of, setpoint_of, current_of, outcome_of, response_of};
ghost use Rattle.capi_messages.specs.Responses.{flat, flat_response, response_in, response_words, response_values};

use capi_fields::{amount_of, flat_amount, is_yes, word_of};
use wire_messages::{
    CurrentResult, LimitResult, Outcome, Response, SET_CURRENT_LIMITS, SET_LIMIT, SET_SETPOINT,
    SetpointResult,
};

// Words of a response: id, status, result, applied, state.
pub const RESPONSE: usize = 5;

// Its signed values: consumption, production, reason, and the currents of the phases A, B, C.
pub const AMOUNTS: usize = 6;

// Absent is -1. The result stands at status 0, and for SetLimit also at 11 to 14.
#[derive(Clone, Copy)]
pub struct FlatResponse {
    pub id: u64,
    pub status: u64,
    pub result: bool,
    pub applied: bool,
    pub state: u64,
    pub consumption: i64,
    pub production: i64,
    pub reason: i64,
    pub a: i64,
    pub b: i64,
    pub c: i64,
}

#[tactic(auto, unfolding(crate::specs::Responses::limit_of))]
fn limit_of(p: FlatResponse) -> LimitResult
    ensures { result ≡ limit_of p }
{
    LimitResult {
        applied: p.applied,
        state: p.state,
        consumption: amount_of(p.consumption),
        production: amount_of(p.production),
        reason: amount_of(p.reason),
    }
}

#[tactic(auto, unfolding(crate::specs::Responses::setpoint_of))]
fn setpoint_of(p: FlatResponse) -> SetpointResult
    ensures { result ≡ setpoint_of p }
{
    SetpointResult {
        consumption: amount_of(p.consumption),
        production: amount_of(p.production),
    }
}

#[tactic(auto, unfolding(crate::specs::Responses::current_of))]
fn current_of(p: FlatResponse) -> CurrentResult
    ensures { result ≡ current_of p }
{
    CurrentResult {
        a: amount_of(p.a),
        b: amount_of(p.b),
        c: amount_of(p.c),
    }
}

fn is_limit(command: u64, applied: bool) -> bool
    ensures { result ≡ (eqb command 1 || not applied) }
{
    command == SET_LIMIT || !applied
}

#[tactic(auto, unfolding(crate::specs::Responses::outcome_of))]
fn outcome_of(command: u64, p: FlatResponse) -> Outcome
    ensures { result ≡ outcome_of command p }
{
    if !p.result {
        return Outcome::Nothing;
    }
    match command {
        _ if is_limit(command, p.applied) => Outcome::Limit(limit_of(p)),
        SET_SETPOINT => Outcome::Setpoint(setpoint_of(p)),
        SET_CURRENT_LIMITS => Outcome::Current(current_of(p)),
        _ => Outcome::Success,
    }
}

#[tactic(auto, unfolding(crate::specs::Responses::response_of))]
pub fn response_of(command: u64, p: FlatResponse) -> Response
    ensures { result ≡ response_of command p }
{
    Response {
        id: p.id,
        status: p.status,
        outcome: outcome_of(command, p),
    }
}

// A flat response to a command that succeeded and shows no value: what is absent is -1.
#[tactic(auto, unfolding(crate::specs::Responses::flat, capi_fields::specs::Amounts::flat_amount))]
fn bare(r: Response) -> FlatResponse
    ensures { result ≡ flat r true true 0 None None None }
{
    FlatResponse {
        id: r.id,
        status: r.status,
        result: true,
        applied: true,
        state: 0,
        consumption: -1,
        production: -1,
        reason: -1,
        a: -1,
        b: -1,
        c: -1,
    }
}

#[tactic(auto, unfolding(crate::specs::Responses::flat_response, crate::specs::Responses::flat, capi_fields::specs::Amounts::flat_amount))]
fn flat_limit(r: Response, l: LimitResult) -> FlatResponse
    ensures { result ≡ flat_response r (Outcome.Limit l) }
{
    FlatResponse {
        applied: l.applied,
        state: l.state,
        consumption: flat_amount(l.consumption),
        production: flat_amount(l.production),
        reason: flat_amount(l.reason),
        ..bare(r)
    }
}

#[tactic(auto, unfolding(crate::specs::Responses::flat_response, crate::specs::Responses::flat, capi_fields::specs::Amounts::flat_amount))]
fn flat_setpoint(r: Response, l: SetpointResult) -> FlatResponse
    ensures { result ≡ flat_response r (Outcome.Setpoint l) }
{
    FlatResponse {
        consumption: flat_amount(l.consumption),
        production: flat_amount(l.production),
        ..bare(r)
    }
}

// The currents of a direction, by phase.
#[tactic(auto, unfolding(crate::specs::Responses::flat_response, crate::specs::Responses::flat, crate::specs::Responses::flat_current, capi_fields::specs::Amounts::flat_amount))]
fn flat_current(r: Response, l: CurrentResult) -> FlatResponse
    ensures { result ≡ flat_response r (Outcome.Current l) }
{
    FlatResponse {
        a: flat_amount(l.a),
        b: flat_amount(l.b),
        c: flat_amount(l.c),
        ..bare(r)
    }
}

#[tactic(auto, unfolding(crate::specs::Responses::flat_response, crate::specs::Responses::flat, capi_fields::specs::Amounts::flat_amount))]
pub fn flat_response(r: Response, o: Outcome) -> FlatResponse
    ensures { result ≡ flat_response r o }
{
    match o {
        Outcome::Nothing => FlatResponse {
            result: false,
            applied: false,
            ..bare(r)
        },
        Outcome::Limit(l) => flat_limit(r, l),
        Outcome::Setpoint(l) => flat_setpoint(r, l),
        Outcome::Current(l) => flat_current(r, l),
        Outcome::Success => bare(r),
    }
}

// A flat response from its words and values.
#[tactic(auto, unfolding(crate::specs::Responses::response_in))]
pub fn response_in(w: [u64; RESPONSE], v: [i64; AMOUNTS]) -> FlatResponse
    ensures { result ≡ response_in w v }
{
    FlatResponse {
        id: w[0],
        status: w[1],
        result: is_yes(w[2]),
        applied: is_yes(w[3]),
        state: w[4],
        consumption: v[0],
        production: v[1],
        reason: v[2],
        a: v[3],
        b: v[4],
        c: v[5],
    }
}

#[tactic(auto, unfolding(crate::specs::Responses::response_words))]
pub fn response_words(p: FlatResponse) -> [u64; RESPONSE]
    ensures { result ≡ response_words p }
{
    [
        p.id,
        p.status,
        word_of(p.result),
        word_of(p.applied),
        p.state,
    ]
}

#[tactic(auto, unfolding(crate::specs::Responses::response_values))]
pub fn response_values(p: FlatResponse) -> [i64; AMOUNTS]
    ensures { result ≡ response_values p }
{
    [p.consumption, p.production, p.reason, p.a, p.b, p.c]
}
