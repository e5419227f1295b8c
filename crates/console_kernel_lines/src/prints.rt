// `rows RECORDS`. No slice of records is lent: each is taken by value and printed, and the answer is that of a slice so long.
ghost use Rattle.std.specs.Prelude.{◌≡◌};
ghost use Rattle.console_kernel_lines.specs.Values.{values_in};

use console_words::{put_end, put_list};
use kernel::{Row, State, VALUES};

// The most records that are lent: those of the longest plan.
const RECORDS: usize = kernel::PLAN / kernel::ROW;

#[tactic(auto, unfolding(crate::specs::Values::values_in))]
fn values_of(r: Row) -> [i64; VALUES]
    ensures { result ≡ values_in r }
{
    [
        r.state,
        r.limitConsumption,
        r.limitProduction,
        r.setpointConsumption,
        r.setpointProduction,
        r.aConsumption,
        r.aProduction,
        r.bConsumption,
        r.bProduction,
        r.cConsumption,
        r.cProduction,
    ]
}

// A space and a number, for each of the twelve of a row.
fn put_row(out: &mut [u8], at: usize, r: Row) -> usize {
    let values = values_of(r);
    let p = wire_bytes::put_byte(out, at, b' ');
    let q = text::put_decimal(out, p, r.second);
    put_list(out, q, &values, VALUES as u64)
}

// The first n rows.
fn put_rows(d: &State, n: usize, out: &mut [u8], at: usize) -> usize {
    let mut r = kernel::first_record(d);
    let mut p = at;
    for _ in 0..n {
        p = put_row(out, p, r);
        r = kernel::next_record(d, r);
    }
    p
}

// The answer's number, then all the rows' numbers.
pub fn rows(d: &State, lent: u64, out: &mut [u8], at: usize) -> usize {
    let a = kernel::plain_answer(d, RECORDS.min(lent as usize));
    let p = text::put_decimal(out, at, a.number);
    let q = put_rows(d, a.count, out, p);
    put_end(out, q)
}
