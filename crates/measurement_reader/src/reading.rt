// A payload of Measurement, read.
ghost use Rattle.std.specs.Prelude.{◌≡◌, ◌&&◌, leb};
ghost use Rattle.refusals.specs.Answers.{number_in};
ghost use Rattle.wire_heads.specs.Head.{head_at};
ghost use Rattle.wire_cbor.specs.Item.{payload_of, is_some};
ghost use Rattle.measurement_table.specs.Payload.{read_number, read_after};
ghost use Rattle.measurement_reader.specs.Walk.{Filled, payload_at};

use crate::walk::rows_into;
use measurement_table::{WORDS, Words};
use refusals::Refusal;

const LONGEST: usize = 2048;

fn has_length(n: usize) -> bool
    ensures { result ≡ (leb 1 n && leb n 2048) }
{
    (1..=LONGEST).contains(&n)
}

// Whether a payload is one item. By the pass that checks every frame, so that the checker beneath it has no other caller, which
// would keep the compiler from putting it in line there.
fn is_item(s: &[u8]) -> bool
    ensures { result ≡ is_some (payload_of s.now) }
{
    let mut heads = [0u64; wire_cbor::WORDS];
    wire_cbor::scan(s, 0, &mut heads)
}

// The rows of a payload, which is one item.
fn payload_into(s: &[u8], words: &mut Words) -> bool
    ensures { Filled (payload_at s.now (head_at s.now 0)) 0 words.old result words.new }
{
    match wire_heads::read_head(s, 0) {
        Some(head) => head.major == 5 && rows_into(s, head.next, head.arg, words),
        None => false,
    }
}

// Reads a payload, or says why it is refused: then the words stay as they were.
pub fn read_measurement(s: &[u8], words: &mut Words) -> Result<(), Refusal>
    ensures value { number_in result ≡ read_number s.now }
    ensures words_after { words.new ≡ read_after s.now words.old }
{
    if !has_length(s.len()) {
        return Err(Refusal::BadLength);
    }
    if !is_item(s) {
        return Err(Refusal::BadCbor);
    }
    let mut found = [0u64; WORDS];
    if !payload_into(s, &mut found) {
        return Err(Refusal::BadMessage);
    }
    *words = found;
    Ok(())
}
