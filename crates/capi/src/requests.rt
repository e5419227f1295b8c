// Requests for C: words and values, read and written as the kernel reads and writes.
ghost use Rattle.std.specs.Prelude.{◌≡◌, length};
ghost use Rattle.kernel.specs.Door.{read_request};
ghost use Rattle.wire_requests.specs.Requests.{reading_number};
ghost use Rattle.capi.specs.Requests.{request_words_after, request_values_after, request_written, request_left};

use crate::words::hand_out;
use capi_messages::{
    FIELDS, REQUEST, flat_request, request_in, request_of, request_values, request_words,
};
use kernel::{Reading, Refusal};

// At a refusal the words and values stay as they were.
#[tactic(auto, unfolding(crate::specs::Requests::request_words_after, crate::specs::Requests::request_values_after))]
pub fn cekarum_interface_2_read_request(
    frame: &[u8],
    words: &mut [u64; REQUEST],
    values: &mut [i64; FIELDS],
) -> u64
    ensures value { result ≡ reading_number (read_request frame.now) }
    ensures words_after { words.new ≡ request_words_after (read_request frame.now) words.old }
    ensures values_after { values.new ≡ request_values_after (read_request frame.now) values.old }
{
    match kernel::read_request(frame) {
        Reading::Is(r) => {
            let q = flat_request(r, r.command);
            *words = request_words(q);
            *values = request_values(q);
            0
        }
        Reading::Unserved(_) => Refusal::NotServed.number(),
        Reading::Refused(n) => n,
    }
}

#[tactic(auto, unfolding(crate::specs::Requests::request_written, crate::specs::Requests::request_left))]
pub fn cekarum_interface_2_write_request(
    words: &[u64; REQUEST],
    values: &[i64; FIELDS],
    out: &mut [u8],
    written: &mut u64,
) -> u64
    ensures value { result ≡ (request_written words.now values.now (length out.old)).number }
    ensures out_after { out.new ≡ request_left words.now values.now out.old }
    ensures written_after { written.new ≡ (request_written words.now values.now (length out.old)).length }
{
    let request = request_of(request_in(*words, *values));
    hand_out(kernel::write_request(out, request), written)
}
