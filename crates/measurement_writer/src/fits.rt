// Whether words can be written: each mark means something, and each number is in the range of its row.
ghost use Rattle.std.specs.Prelude.{◌≡◌, true, ◌+◌, ◌≤◌, MatchResult};
ghost use Rattle.refusals.specs.declared.refusal.Refusal.{Refusal};
ghost use Rattle.measurement_table.specs.Table.{rows, range_of};
ghost use Rattle.measurement_table.specs.Cells.{cell_fits, cells_fit, rows_fit};
ghost use Rattle.measurement_table.specs.Words.{held_at, held_from, held, marks_fit, range_number};
ghost use Rattle.measurement_writer.specs.Shape.{shaped};

use crate::heads::cell_key_head;
use measurement_table::{PLACES, ROWS, Row, Words, range_of, row_at};
use refusals::Refusal;
use wire_fields::{Range, all3, is_number};

// No mark is above 2.
fn marks_fit(words: &Words) -> bool
    ensures { result ≡ marks_fit words.now 36 0 }
{
    for i in 0..PLACES {
        if 2 < words[2 * i] {
            return false;
        }
    }
    true
}

fn cell_fits(words: &Words, at: usize, range: Range) -> bool
    ensures { result ≡ cell_fits range (held_at words.now at) }
{
    is_number(cell_key_head(words, at), range, false)
}

fn row_fits(words: &Words, place: usize, row: Row) -> bool
    requires { (place + row.1 ≤ 36) × (shaped row ≡ true) }
    ensures { result ≡ cells_fit (range_of row.2) (held_from words.now row.1 place) }
{
    let range = range_of(row.2 as usize);
    if row.1 == 1 {
        return cell_fits(words, place, range);
    }
    all3(
        cell_fits(words, place, range),
        cell_fits(words, place + 1, range),
        cell_fits(words, place + 2, range),
    )
}

// Each number is in its range.
fn rows_fit(words: &Words) -> bool
    ensures { result ≡ rows_fit rows (held words.now) }
{
    let mut place: usize = 0;
    for i in 0..ROWS {
        let row = row_at(i);
        if !row_fits(words, place, row) {
            return false;
        }
        place += row.1 as usize;
    }
    true
}

// Why words are refused, if they are, whatever the room.
#[tactic(auto, unfolding(measurement_table::specs::Words::range_number))]
pub fn check_ranges(words: &Words) -> Result<(), Refusal>
    ensures { MatchResult result (λ _. range_number words.now ≡ 0) (λ e. (range_number words.now ≡ 3) × (e ≡ Refusal.BadMessage)) }
{
    if marks_fit(words) && rows_fit(words) {
        return Ok(());
    }
    Err(Refusal::BadMessage)
}
