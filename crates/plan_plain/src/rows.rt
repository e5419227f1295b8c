// The seconds of the rows: a candidate at which the values are not those of the second before.
ghost use Rattle.std.specs.Prelude.{◌≡◌, not, ◌-◌, ◌<◌, length};
ghost use Rattle.device_store.specs.Words.{clock_of};
ghost use Rattle.device_holds.specs.Holds.{situation_of, values_at};
ghost use Rattle.device_holds.specs.Alike.{alike};
ghost use Rattle.plan_plain.specs.Plain.{plain_seconds, next_row};

use crate::candidates::next_after;
use device_holds::{alike, values_at};
use device_store::{END, State, clock};

// Whether every value at n is that of the second before.
fn unchanged(d: &State, n: u64) -> bool
    requires { 0 < n }
    ensures { result ≡ alike (values_at (situation_of d.now) n) (values_at (situation_of d.now) (n - 1)) }
{
    alike(values_at(d, n), values_at(d, n - 1))
}

// The second of the next row after t, END where there is none: no Option, since a record is promised at END too.
pub fn next_row(d: &State, t: u64) -> u64
    ensures { result ≡ next_row (situation_of d.now) t }
{
    let mut n = next_after(d, t);
    // By hand: each candidate is found from the one before it, and no list holds them in order.
    while n < END && unchanged(d, n) {
        n = next_after(d, n);
    }
    n
}

// How many rows the plan has.
pub fn count(d: &State) -> usize
    ensures { result ≡ length (plain_seconds (situation_of d.now) (clock_of d.now)) }
{
    let mut n = 0;
    let mut t = next_row(d, clock(d));
    // By hand: each row is found from the one before it.
    while t < END {
        n += 1;
        t = next_row(d, t);
    }
    n
}
