// The fields of a map, by what is seen under their keys: one reader each for unsigned and signed numbers, truths and maps.
ghost use Rattle.std.specs.Prelude.{eqb, ◌≡◌, true};
ghost use Rattle.wire_fields.specs.Fields.{truth, number_up_to, needed, value_in, amount_in, success_in};
ghost use Rattle.wire_fields.specs.KeyHeads.{Reads, Gives, UintReads, MapReads};
ghost use Rattle.wire_fields.specs.Seen.{uint_seen, uint_read, amount_read, value_seen, truth_seen, truth_read, success_seen, map_seen};

use crate::ranges::{INT64, is_in, is_number, up_to};
use crate::values::{amount_of, field_of};
use crate::{FALSE, MAP, NOTHING, SIMPLE, TRUE};
use wire_cbor::KeyHead;
use wire_messages::Field;

// Whether an unsigned number of at most `most` is there, or nothing where it need not be.
#[tactic(auto, using(crate::proofs::ByKeyHead::uint_reads), unfolding(crate::specs::Seen::uint_seen))]
pub fn is_uint(k: KeyHead, must: bool, most: u64) -> bool
    ensures uint_reads { UintReads k must most result }
    ensures value { result ≡ uint_seen must most k }
{
    !must && k.major == NOTHING || is_in(k, up_to(most))
}

// An unsigned number of at most `most`, which must be there; `None` is refusal 3.
pub fn read_uint(k: KeyHead, most: u64) -> Option<u64>
    ensures reads { Gives k (needed (number_up_to most)) result }
    ensures value { result ≡ uint_read most k }
{
    is_uint(k, true, most).then_some(k.arg)
}

// The same where it need not be there: then there is no amount.
pub fn read_amount(k: KeyHead, most: u64) -> Option<Option<u64>>
    ensures reads { Gives k (amount_in most) result }
    ensures value { result ≡ amount_read most k }
{
    is_uint(k, false, most).then_some(amount_of(k))
}

// A signed number, or null where that is allowed, or nothing; `None` is refusal 3.
pub fn read_value(k: KeyHead, null: bool) -> Option<Field>
    ensures reads { Gives k (value_in null) result }
    ensures value { result ≡ value_seen null k }
{
    is_number(k, INT64, null).then_some(field_of(k))
}

// Whether false or true is there.
#[tactic(auto, using(crate::proofs::ByKeyHead::truth_reads), unfolding(crate::specs::Seen::truth_seen))]
pub fn is_truth(k: KeyHead) -> bool
    ensures reads { Reads k (needed truth) result (eqb k.arg 21) }
    ensures value { result ≡ truth_seen k }
{
    k.major == SIMPLE && (k.arg == FALSE || k.arg == TRUE)
}

// The one of them that is there; `None` is refusal 3.
pub fn read_truth(k: KeyHead) -> Option<bool>
    ensures reads { Gives k (needed truth) result }
    ensures value { result ≡ truth_read k }
{
    is_truth(k).then_some(k.arg == TRUE)
}

// Whether true is there.
#[tactic(auto, using(crate::proofs::ByKeyHead::success_reads), unfolding(crate::specs::Seen::success_seen))]
pub fn is_success(k: KeyHead) -> bool
    ensures reads { Reads k success_in result true }
    ensures value { result ≡ success_seen k }
{
    k.major == SIMPLE && k.arg == TRUE
}

// Whether a map is there.
pub fn is_map(k: KeyHead) -> bool
    ensures map_reads { MapReads k result }
    ensures value { result ≡ map_seen k }
{
    k.major == MAP
}
