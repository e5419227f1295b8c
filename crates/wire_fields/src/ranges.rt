// Numbers of a range, by the head of what stands under a key: one test for every number that is read.
ghost use Rattle.std.specs.Prelude.{◌≡◌};
ghost use Rattle.wire_fields.specs.Ranges.{up_to_most, numeric};
ghost use Rattle.wire_fields.specs.KeyHeads.{number_seen, Tells};
ghost use Rattle.wire_fields.specs.Seen.{numeric_seen};

use crate::{NINT, NOTHING, NULL, SIMPLE, UINT};
use wire_cbor::KeyHead;

// Whole numbers: n is one of them where it is at most `high`, -1 - n where n is below `below`.
#[derive(Clone, Copy)]
pub struct Range {
    pub below: u64,
    pub high: u64,
}

// Those of 64 signed bits.
pub const INT64: Range = Range {
    below: 9223372036854775808,
    high: 9223372036854775807,
};

// Those from 0 to `most`.
pub fn up_to(most: u64) -> Range
    ensures { result ≡ up_to_most most }
{
    Range {
        below: 0,
        high: most,
    }
}

// Whether a number of a range is there.
pub fn is_in(k: KeyHead, range: Range) -> bool
    ensures { result ≡ number_seen range k }
{
    match k.major {
        UINT => k.arg <= range.high,
        NINT => k.arg < range.below,
        _ => false,
    }
}

// The same, or nothing, or null where that is allowed.
#[tactic(auto, using(crate::proofs::RangeLaws::number_tells))]
pub fn is_number(k: KeyHead, range: Range, null: bool) -> bool
    ensures tells { Tells k (numeric range null) result }
    ensures value { result ≡ numeric_seen range null k }
{
    match k.major {
        UINT | NINT => is_in(k, range),
        SIMPLE => null && k.arg == NULL,
        NOTHING => true,
        _ => false,
    }
}
