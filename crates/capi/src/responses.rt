// Responses for C: words and values, read and written as the kernel reads and writes.
ghost use Rattle.std.specs.Prelude.{◌≡◌, length};
ghost use Rattle.kernel.specs.Door.{read_response};
ghost use Rattle.wire_responses.specs.Responses.{answer_number};
ghost use Rattle.capi.specs.Responses.{response_words_after, response_values_after, response_written, response_left};

use crate::words::hand_out;
use capi_messages::{
    AMOUNTS, RESPONSE, flat_response, response_in, response_of, response_values, response_words,
};
use kernel::Answer;

// At a refusal the words and values stay as they were.
#[tactic(auto, unfolding(crate::specs::Responses::response_words_after, crate::specs::Responses::response_values_after))]
pub fn cekarum_interface_2_read_response(
    command: u64,
    frame: &[u8],
    words: &mut [u64; RESPONSE],
    values: &mut [i64; AMOUNTS],
) -> u64
    ensures value { result ≡ answer_number (read_response command frame.now) }
    ensures words_after { words.new ≡ response_words_after (read_response command frame.now) words.old }
    ensures values_after { values.new ≡ response_values_after (read_response command frame.now) values.old }
{
    match kernel::read_response(command, frame) {
        Answer::Is(r) => {
            let p = flat_response(r, r.outcome);
            *words = response_words(p);
            *values = response_values(p);
            0
        }
        Answer::Refused(n) => n,
    }
}

#[tactic(auto, unfolding(crate::specs::Responses::response_written, crate::specs::Responses::response_left))]
pub fn cekarum_interface_2_write_response(
    command: u64,
    words: &[u64; RESPONSE],
    values: &[i64; AMOUNTS],
    out: &mut [u8],
    written: &mut u64,
) -> u64
    ensures value { result ≡ (response_written command words.now values.now (length out.old)).number }
    ensures out_after { out.new ≡ response_left command words.now values.now out.old }
    ensures written_after { written.new ≡ (response_written command words.now values.now (length out.old)).length }
{
    let response = response_of(command, response_in(*words, *values));
    hand_out(kernel::write_response(out, command, response), written)
}
