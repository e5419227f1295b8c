// What words hold at a place, as the head of a CBOR number.
ghost use Rattle.std.specs.Prelude.{◌≡◌};
ghost use Rattle.wire_cbor.specs.Scan.{key_head_of};
ghost use Rattle.measurement_table.specs.Cells.{cell_item};
ghost use Rattle.measurement_table.specs.Words.{held_at};

use measurement_table::{Words, place_at};
use wire_cbor::KeyHead;

// A cell as it is to be seen: n is major type 0 with n, -1 - n is major type 1 with n; or nothing.
pub fn cell_key_head(words: &Words, at: usize) -> KeyHead
    ensures { result ≡ key_head_of (cell_item (held_at words.now at)) }
{
    let p = place_at(words, at);
    if p.mark == 1 {
        return KeyHead {
            major: 0,
            arg: p.size,
        };
    }
    if p.mark == 2 {
        return KeyHead {
            major: 1,
            arg: p.size,
        };
    }
    KeyHead { major: 8, arg: 8 }
}
