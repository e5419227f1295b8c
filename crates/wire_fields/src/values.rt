// Turns the CBOR head found under a key into a number: an unsigned one, or a signed one or null.
ghost use Rattle.std.specs.Prelude.{◌≡◌};
ghost use Rattle.wire_fields.specs.Values.{amount_of, field_of};

use crate::{NINT, SIMPLE, UINT};
use wire_cbor::KeyHead;
use wire_messages::Field;

// Numbers of 64 signed bits are below it.
const LIMIT: u64 = 9223372036854775808;

// The number that is there, or none.
pub fn amount_of(k: KeyHead) -> Option<u64>
    ensures { result ≡ amount_of k }
{
    (k.major == UINT).then_some(k.arg)
}

// The signed number that is there, null, or nothing: n is n in major type 0 and -1 - n in major type 1.
// A number past 64 signed bits, which no reader accepts, counts by its low 63 bits: so there is nothing to test.
#[tactic(auto, unfolding(crate::specs::Values::field_of))]
pub fn field_of(k: KeyHead) -> Field
    ensures { result ≡ field_of k }
{
    let v = (k.arg % LIMIT) as i64;
    match k.major {
        UINT => Field::Value(v),
        NINT => Field::Value(-1 - v),
        SIMPLE => Field::Null,
        _ => Field::Absent,
    }
}
