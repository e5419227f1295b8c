// The attributes that are there, counted and put one behind the other; absent ones are left out.
ghost use Rattle.std.specs.Prelude.{◌≡◌, true, ◌+◌, ◌*◌, ◌≤◌};
ghost use Rattle.wire_cbor.specs.Item.{encode, encode_pairs, count_pairs};
ghost use Rattle.wire_fields.specs.Fields.{present};
ghost use Rattle.wire_fields.specs.Puts.{Puts, pairs_of};
ghost use Rattle.measurement_table.specs.Table.{rows};
ghost use Rattle.measurement_table.specs.Cells.{row_item, fields_of};
ghost use Rattle.measurement_table.specs.Words.{held_from, held};
ghost use Rattle.measurement_table.specs.Payload.{item_of};
ghost use Rattle.measurement_writer.specs.Shape.{shaped};
ghost use Rattle.measurement_writer.specs.Room.{row_bytes, place_room, rows_room, payload_room, PutsShort};

use crate::heads::cell_key_head;
use measurement_table::{ROWS, Row, Words, row_at};
use wire_fields::{count_phases, put_key_head, put_map, put_phases};

// 1 where an attribute is there, else 0.
fn count_row(words: &Words, place: usize, row: Row) -> u64
    requires { (place + row.1 ≤ 36) × (shaped row ≡ true) }
    ensures { result ≡ pairs_of (row_item row (held_from words.now row.1 place)) }
{
    let a = cell_key_head(words, place);
    if row.1 == 1 {
        if a.major == 8 {
            return 0;
        }
        return 1;
    }
    let b = cell_key_head(words, place + 1);
    let c = cell_key_head(words, place + 2);
    if count_phases(a, b, c) == 0 {
        return 0;
    }
    1
}

// How many attributes are there.
fn count_rows(words: &Words) -> u64
    ensures value { result ≡ count_pairs (present (fields_of rows (held words.now))) }
    ensures upper_bound { result ≤ 24 }
{
    let mut r: u64 = 0;
    let mut place: usize = 0;
    for i in 0..ROWS {
        let row = row_at(i);
        r += count_row(words, place, row);
        place += row.1 as usize;
    }
    r
}

// A map of phases, where one of them is there.
fn put_three(out: &mut [u8], at: usize, words: &Words, place: usize, row: Row) -> usize
    requires { (place + row.1 ≤ 36) × (shaped row ≡ true) × (row.1 ≡ 3) }
    ensures { PutsShort out.old at (row_bytes words.now place row) (place_room * row.1) out.new result }
{
    let a = cell_key_head(words, place);
    let b = cell_key_head(words, place + 1);
    let c = cell_key_head(words, place + 2);
    let n = count_phases(a, b, c);
    if n == 0 {
        return at;
    }
    let behind = put_map(out, at, row.0 as u64, n);
    put_phases(out, behind, a, b, c)
}

// An attribute: nothing where it is absent.
fn put_row(out: &mut [u8], at: usize, words: &Words, place: usize, row: Row) -> usize
    requires { (place + row.1 ≤ 36) × (shaped row ≡ true) }
    ensures { PutsShort out.old at (row_bytes words.now place row) (place_room * row.1) out.new result }
{
    if row.1 == 1 {
        let a = cell_key_head(words, place);
        return put_key_head(out, at, row.0 as u64, a);
    }
    put_three(out, at, words, place, row)
}

// All attributes that are there.
fn put_rows(out: &mut [u8], at: usize, words: &Words) -> usize
    ensures { PutsShort out.old at (encode_pairs (present (fields_of rows (held words.now)))) rows_room out.new result }
{
    let mut p = at;
    let mut place: usize = 0;
    for i in 0..ROWS {
        let row = row_at(i);
        p = put_row(out, p, words, place, row);
        place += row.1 as usize;
    }
    p
}

// A payload, at the front.
pub(crate) fn put_payload(out: &mut [u8], words: &Words) -> usize
    ensures { Puts out.old 0 (encode (item_of (held words.now))) payload_room out.new result }
{
    let n = count_rows(words);
    let p = wire_heads::put_head(out, 0, 5, n);
    put_rows(out, p, words)
}
