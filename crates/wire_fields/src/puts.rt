// Fields of a map, each added behind what is written. A head that does not fit is passed over.
ghost use Rattle.std.specs.Prelude.{◌≡◌, ◌<◌};
ghost use Rattle.std.proofs.Math.Option.{some};
ghost use Rattle.wire_cbor.specs.Item.{Item};
ghost use Rattle.wire_cbor.specs.Scan.{key_head_of};
ghost use Rattle.wire_fields.specs.Fields.{truth_item, value_item, amount_item};
ghost use Rattle.wire_fields.specs.Puts.{PutsField, pair_bytes, field_bytes, key_head_bytes, pair_pieces, field_pieces, key_head_pieces, pairs_of};

use crate::{FALSE, MAP, NINT, NOTHING, NULL, SIMPLE, TRUE, UINT};
use wire_cbor::KeyHead;
use wire_messages::Field;

// A key, and the head of its value.
fn put_pair(out: &mut [u8], at: usize, key: u64, major: u64, arg: u64) -> usize
    requires { major < 8 }
    ensures { PutsField out.old at (pair_pieces key major arg) (pair_bytes key major arg) out.new result }
{
    let behind = wire_heads::put_head(out, at, 0, key);
    wire_heads::put_head(out, behind, major, arg)
}

// The head of a map of n pairs, which stand behind it.
pub fn put_map(out: &mut [u8], at: usize, key: u64, n: u64) -> usize
    ensures { PutsField out.old at (pair_pieces key 5 n) (pair_bytes key 5 n) out.new result }
{
    put_pair(out, at, key, MAP, n)
}

// An unsigned number.
#[tactic(auto, unfolding(crate::specs::Puts::pair_bytes, crate::specs::Puts::field_bytes, crate::specs::Puts::field_pieces, wire_cbor::specs::Item::encode))]
pub fn put_uint(out: &mut [u8], at: usize, key: u64, v: u64) -> usize
    ensures { PutsField out.old at (field_pieces key (some (Item.uint v))) (field_bytes key (some (Item.uint v))) out.new result }
{
    put_pair(out, at, key, UINT, v)
}

// False or true.
#[tactic(auto, unfolding(crate::specs::Puts::pair_bytes, crate::specs::Puts::field_bytes, crate::specs::Puts::field_pieces, wire_cbor::specs::Item::encode))]
pub fn put_truth(out: &mut [u8], at: usize, key: u64, b: bool) -> usize
    ensures { PutsField out.old at (field_pieces key (some (truth_item b))) (field_bytes key (some (truth_item b))) out.new result }
{
    if b {
        put_pair(out, at, key, SIMPLE, TRUE)
    } else {
        put_pair(out, at, key, SIMPLE, FALSE)
    }
}

// What is to be seen under a key: its head, or nothing.
pub fn put_key_head(out: &mut [u8], at: usize, key: u64, k: KeyHead) -> usize
    ensures { PutsField out.old at (key_head_pieces key k) (key_head_bytes key k) out.new result }
{
    if k.major < NOTHING {
        return put_pair(out, at, key, k.major, k.arg);
    }
    at
}

// An unsigned number as it is to be seen, or nothing.
#[tactic(auto, unfolding(crate::specs::Fields::amount_item, wire_cbor::specs::Scan::key_head_of))]
pub fn amount_key_head(a: Option<u64>) -> KeyHead
    ensures { result ≡ key_head_of (amount_item a) }
{
    match a {
        None => KeyHead {
            major: NOTHING,
            arg: NOTHING,
        },
        Some(v) => KeyHead {
            major: UINT,
            arg: v,
        },
    }
}

// A signed number, null or nothing: n is major type 0 with n, -1 - n is major type 1 with n.
#[tactic(auto, unfolding(crate::specs::Fields::value_item, wire_cbor::specs::Scan::key_head_of))]
pub fn field_key_head(f: Field) -> KeyHead
    ensures { result ≡ key_head_of (value_item f) }
{
    match f {
        Field::Absent => KeyHead {
            major: NOTHING,
            arg: NOTHING,
        },
        Field::Null => KeyHead {
            major: SIMPLE,
            arg: NULL,
        },
        Field::Value(v) => {
            if v < 0 {
                KeyHead {
                    major: NINT,
                    arg: (-1 - v) as u64,
                }
            } else {
                KeyHead {
                    major: UINT,
                    arg: v as u64,
                }
            }
        }
    }
}

// An unsigned number, or nothing.
pub fn put_amount(out: &mut [u8], at: usize, key: u64, a: Option<u64>) -> usize
    ensures { PutsField out.old at (field_pieces key (amount_item a)) (field_bytes key (amount_item a)) out.new result }
{
    put_key_head(out, at, key, amount_key_head(a))
}

// A signed number, null or nothing.
pub fn put_value(out: &mut [u8], at: usize, key: u64, f: Field) -> usize
    ensures { PutsField out.old at (field_pieces key (value_item f)) (field_bytes key (value_item f)) out.new result }
{
    put_key_head(out, at, key, field_key_head(f))
}

// How many pairs a field is.
#[tactic(auto, unfolding(crate::specs::Fields::value_item))]
pub fn count_value(f: Field) -> u64
    ensures { result ≡ pairs_of (value_item f) }
{
    u64::from(!matches!(f, Field::Absent))
}

// The same of an amount.
#[tactic(auto, unfolding(crate::specs::Fields::amount_item))]
pub fn count_amount(a: Option<u64>) -> u64
    ensures { result ≡ pairs_of (amount_item a) }
{
    u64::from(a.is_some())
}
