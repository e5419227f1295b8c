// The frame call: a request is read, decided and answered; only then is anything stored.
//
// A frame is refused in this order:
//   1                `frame`: its length
//   2                `wire_requests::read_payload`: strict CBOR
//   3, 4, 3          `read_message` there: the envelope, what is served, the parameters
//   5, 9, 10         `command_tests::check_command`: the second, the zone, its link
//   11, 12, 13, 14   `check_content` there: the command itself
//   15               `answer`: the response that has no space, once nothing else is refused
ghost use Rattle.std.specs.Prelude.{◌≡◌, length};
ghost use Rattle.wire_cbor.specs.Item.{payload_of};
ghost use Rattle.wire_requests.specs.Requests.{from_payload};
ghost use Rattle.wire_requests.specs.declared.reading.Reading.{Reading};
ghost use Rattle.kernel.specs.Frame.{answer_from, after_from, out_from, frame_answer, frame_after, frame_out};

use device_calls::State;
use device_calls::commands::{decide, enact, outcome_of};
use refusals::{BAD_LENGTH, NOT_SERVED};
use wire_messages::Request;
use wire_requests::Reading;
use wire_responses::{reply_to, unserved_reply};

// The answer to a frame: its number, and the length of the response frame that was written.
// Not a Result: a refused frame has a response, and so a length, too.
#[repr(C)]
#[derive(Clone, Copy)]
pub struct Framed {
    pub number: u64,
    pub length: usize,
}

// A request that was read, from a zone at t.
fn answer(d: &mut State, zone: u64, t: u64, r: Request, out: &mut [u8]) -> Framed
    ensures value { result ≡ answer_from d.old zone t (Reading.Is r) (length out.old) }
    ensures d_after { d.new ≡ after_from d.old zone t (Reading.Is r) (length out.old) }
    ensures out_after { out.new ≡ out_from d.old zone t (Reading.Is r) out.old }
{
    let c = r.command;
    let x = decide(d, zone, t, c);
    let n = x.number;
    let outcome = outcome_of(d, t, c, x);
    let w = wire_responses::frame_response(out, reply_to(r, n, outcome));
    if n != 0 {
        return Framed {
            number: n,
            length: w.length,
        };
    }
    if w.number == 0 {
        enact(d, t, x);
    }
    Framed {
        number: w.number,
        length: w.length,
    }
}

// A payload from a zone at t.
fn payload_call(d: &mut State, zone: u64, t: u64, payload: &[u8], out: &mut [u8]) -> Framed
    ensures value { result ≡ answer_from d.old zone t (from_payload (payload_of payload.now)) (length out.old) }
    ensures d_after { d.new ≡ after_from d.old zone t (from_payload (payload_of payload.now)) (length out.old) }
    ensures out_after { out.new ≡ out_from d.old zone t (from_payload (payload_of payload.now)) out.old }
{
    match wire_requests::read_payload(payload) {
        Reading::Is(r) => answer(d, zone, t, r, out),
        Reading::Unserved(id) => {
            let w = wire_responses::frame_response(out, unserved_reply(id));
            Framed {
                number: NOT_SERVED,
                length: w.length,
            }
        }
        Reading::Refused(n) => Framed {
            number: n,
            length: 0,
        },
    }
}

// A frame's bytes from a zone at t, the response into `out`. The four bytes of length stand before the payload.
pub fn frame(d: &mut State, zone: u64, t: u64, bytes: &[u8], out: &mut [u8]) -> Framed
    ensures value { result ≡ frame_answer d.old zone t bytes.now (length out.old) }
    ensures d_after { d.new ≡ frame_after d.old zone t bytes.now (length out.old) }
    ensures out_after { out.new ≡ frame_out d.old zone t bytes.now out.old }
{
    if wire_prefix::is_framed(bytes) {
        return payload_call(d, zone, t, &bytes[wire_prefix::PREFIX..], out);
    }
    Framed {
        number: BAD_LENGTH,
        length: 0,
    }
}
