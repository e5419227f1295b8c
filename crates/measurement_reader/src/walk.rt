// The walk over a payload: the rows of the table and the pairs of the map in one pass.
ghost use Rattle.std.specs.Prelude.{◌≡◌, ◌+◌, ◌*◌, ◌≤◌};
ghost use Rattle.std.proofs.lemmas.List.Edits.{sets};
ghost use Rattle.wire_heads.specs.Head.{head_at};
ghost use Rattle.measurement_table.specs.Table.{rows};
ghost use Rattle.measurement_table.specs.Cells.{blanks};
ghost use Rattle.measurement_table.specs.Words.{flat};
ghost use Rattle.measurement_reader.specs.Walk.{Filled, cells_at, phases_from, row_at, rows_at};

use crate::cells::{REFUSED, cell_at, next_at};
use measurement_table::{Place, ROWS, Row, Words, put_place, range_of, row_at};
use wire_fields::Range;

// How many levels the value of a phase may have; the value of an attribute has one more.
const INNER: u64 = 6;

const OUTER: u64 = 7;

// Nothing in n places. By a walk, since the contract counts places, of two words each.
fn put_blanks(words: &mut Words, at: usize, n: usize)
    requires { at + n ≤ 36 }
    ensures { words.new ≡ sets words.old (2 * at) (flat (blanks n)) }
{
    for i in 0..n {
        put_place(words, at + i, Place { mark: 0, size: 0 });
    }
}

// The phases of a map with n pairs at `at`: false where one is refused or a pair is left.
fn cells_into(
    s: &[u8],
    at: usize,
    n: u64,
    range: Range,
    width: usize,
    place: usize,
    words: &mut Words,
) -> bool
    requires { place + width ≤ 36 }
    ensures { Filled (cells_at s.now 6 range width 0 n at) (2 * place) words.old result words.new }
{
    let mut p = at;
    let mut left = n;
    for k in 0..width {
        let w = wire_cbor::seek(s, p, left, k as u64, INNER);
        let c = cell_at(s, range, w.there, w.at);
        if c.mark == REFUSED {
            return false;
        }
        put_place(words, place + k, c);
        p = next_at(s, INNER, w.there, w.at);
        left = w.left;
    }
    left == 0
}

// The phases under an attribute, whose value stands at `at`.
#[tactic(auto, using(crate::proofs::Fills::phases_no_head, crate::proofs::Fills::phases_map))]
fn phases_into(
    s: &[u8],
    at: usize,
    range: Range,
    width: usize,
    place: usize,
    words: &mut Words,
) -> bool
    requires { place + width ≤ 36 }
    ensures { Filled (phases_from s.now 6 range width (head_at s.now at)) (2 * place) words.old result words.new }
{
    match wire_heads::read_head(s, at) {
        Some(head) => {
            if head.major != 5 || head.arg == 0 {
                return false;
            }
            cells_into(s, head.next, head.arg, range, width, place, words)
        }
        None => false,
    }
}

// A row of the table, whose value the walk found or did not.
fn row_into(s: &[u8], row: Row, there: bool, at: usize, place: usize, words: &mut Words) -> bool
    requires { place + row.1 ≤ 36 }
    ensures { Filled (row_at s.now 6 row there at) (2 * place) words.old result words.new }
{
    let width = row.1 as usize;
    let range = range_of(row.2 as usize);
    if width == 1 {
        let c = cell_at(s, range, there, at);
        if c.mark == REFUSED {
            return false;
        }
        put_place(words, place, c);
        return true;
    }
    if there {
        return phases_into(s, at, range, width, place, words);
    }
    put_blanks(words, place, width);
    true
}

// The rows of the table, with n pairs at `at`: false where one is refused.
pub(crate) fn rows_into(s: &[u8], at: usize, n: u64, words: &mut Words) -> bool
    ensures { Filled (rows_at s.now 6 rows n at) 0 words.old result words.new }
{
    let mut p = at;
    let mut left = n;
    let mut place: usize = 0;
    for i in 0..ROWS {
        let row = row_at(i);
        let w = wire_cbor::seek(s, p, left, row.0 as u64, OUTER);
        if !row_into(s, row, w.there, w.at, place, words) {
            return false;
        }
        p = next_at(s, OUTER, w.there, w.at);
        left = w.left;
        place += row.1 as usize;
    }
    true
}
