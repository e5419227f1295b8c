// A payload of Measurement, written.
ghost use Rattle.std.specs.Prelude.{◌≡◌, length};
ghost use Rattle.wire_cbor.specs.Item.{encode};
ghost use Rattle.wire_output.specs.Writing.{written_of, left_by};
ghost use Rattle.measurement_table.specs.Payload.{item_of};
ghost use Rattle.measurement_table.specs.Words.{held, range_number};

use crate::fits::check_ranges;
use crate::puts::put_payload;
use measurement_table::Words;
use wire_output::{Written, refused, write_payload};

// More bytes than any payload that is written has, with what its widest piece asks for.
const ROOM: usize = 437;

// Writes what words hold as a payload at the front of `out`: refusal 3, then 15; then nothing is written.
pub fn write_measurement(words: &Words, out: &mut [u8]) -> Written
    ensures value { result ≡ written_of (range_number words.now) (encode (item_of (held words.now))) (length out.old) }
    ensures out_after { out.new ≡ left_by (range_number words.now) (encode (item_of (held words.now))) out.old }
{
    if let Err(refusal) = check_ranges(words) {
        return refused(refusal.number());
    }
    let mut payload = [0u8; ROOM];
    let n = put_payload(&mut payload, words);
    write_payload(out, &payload[..n])
}
