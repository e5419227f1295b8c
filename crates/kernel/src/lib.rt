// The calls that a driver makes. It lends the device's words, a frame, room for the response and room for a plan's rows.
// An ask and a plan are lent the words without the right to change them.
//
// Every call ends with an answer, for every content of what is lent, every zone number and every time. The calls down to
// `move_clock` answer `Ok`, or by name why they are refused, and `number_in` gives such an answer's number; the others answer the
// number: 0 where the call is accepted, else document 01's refusal. A refusal leaves the words as they were, the clock among them,
// and writes nothing, save the response frame of `frame` where document 01 allows one.
//
// start(d, settings)                    a fresh device; 16 for bad settings, and then a device that accepts nothing
// join(d, zone, rank, t)                5, 6, 7, 8
// leave(d, zone, t)                     5, 9
// lost(d, zone, t), back(d, zone, t)    5, 9, 7
// set_override(d, reason, direction, t) 5, 18
// clear_override(d, t)                  5, 7
// move_clock(d, t)                      5; the clock alone moves
// ask(d)                                no refusal; the control state and the ten values at the device's last time, -1 absent
// frame(d, zone, t, bytes, out)         1, 2, 3, 4, 5, 9 to 15; the response frame from the front of `out`
// plan(d, rows)                         15; rows of twelve numbers from the device's last time on, at the front of `rows`
// plain_plan(d, rows)                   15; the same rows as records, made the slow way
// plain_answer(d, room)                 15; its number and count alone, where there is room for so many records
// first_record(d), next_record(d, last) its records one by one, for a caller who lends no slice
// read_request, write_request           1, 2, 3, 4; 3, 4, 15; for the other side of the wire
// read_response, write_response         4, 1, 2, 3; 4, 3, 15; likewise
// report(inputs, attributes, pairs)     16, 17, 15; the conformance report, from the front of `pairs`
#![tactic(auto)]

mod frame_call; // frame_call.rt: bytes in, the device, bytes out

pub use device_calls::calls::{
    ask, back, clear_override, join, leave, lost, move_clock, set_override, start,
};
pub use device_calls::{MOST, Settings, State, VALUE_END, VALUES, WORDS};
pub use frame_call::{Framed, frame};
pub use plan::{PLAN, Planned, ROW, plan};
pub use plan_plain::{
    Planned as PlainPlanned, Row, first_record, next_record, plain_answer, plain_plan,
};
pub use refusals::{Refusal, number_in};
pub use report::{Answer as Reported, Inputs, report};
pub use wire_output::Written;
pub use wire_prefix::FRAME;
pub use wire_requests::{Reading, read_request, write_request};
pub use wire_responses::{Answer, RESPONSE, read_response, write_response};

// Numbers of the longest report, two a pair.
pub const REPORT: usize = 2 * 48;
