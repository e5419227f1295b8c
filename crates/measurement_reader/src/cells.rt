// One cell of a payload, and where the walk goes on behind it.
ghost use Rattle.std.specs.Prelude.{◌≡◌};
ghost use Rattle.std.proofs.Math.Option.{some, map};
ghost use Rattle.measurement_reader.specs.Walk.{place_or, number_by, cell_at, next_at};

use measurement_table::Place;
use wire_cbor::KeyHead;
use wire_fields::{Range, is_in};

// The mark of a cell that is refused; it is never stored.
pub(crate) const REFUSED: u64 = 3;

const NOT_READ: Place = Place {
    mark: REFUSED,
    size: 0,
};

// A number of a range, by its head.
fn number_of(range: Range, major: u64, n: u64) -> Place
    ensures { result ≡ place_or (map (λ z. some z) (number_by range major n)) }
{
    if !is_in(KeyHead { major, arg: n }, range) {
        return NOT_READ;
    }
    if major == 0 {
        return Place { mark: 1, size: n };
    }
    Place { mark: 2, size: n }
}

// What a walk found for a cell.
pub(crate) fn cell_at(s: &[u8], range: Range, there: bool, at: usize) -> Place
    ensures { result ≡ place_or (cell_at s.now range there at) }
{
    if there {
        return match wire_heads::read_head(s, at) {
            None => NOT_READ,
            Some(head) => number_of(range, head.major, head.arg),
        };
    }
    Place { mark: 0, size: 0 }
}

// Where a walk goes on. No item that a walk finds is bad; 0 only stands where the definition has it.
pub(crate) fn next_at(s: &[u8], depth: u64, there: bool, at: usize) -> usize
    ensures { result ≡ next_at s.now depth there at }
{
    if there {
        return wire_cbor::check_item(s, at, depth).unwrap_or(0);
    }
    at
}
