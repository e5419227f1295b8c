// Rows as records.
ghost use Rattle.std.specs.Prelude.{◌≡◌};
ghost use Rattle.device_store.specs.Words.{clock_of};
ghost use Rattle.device_holds.specs.Holds.{situation_of};
ghost use Rattle.plan_plain.specs.Records.{row_of, plain_answer, record_at, record_after};

use crate::rows::{count, next_row};
use crate::{Planned, Row};
use device_holds::values_at;
use device_store::{State, VALUES, clock};
use refusals::NO_SPACE;

#[tactic(auto, unfolding(crate::specs::Records::row_of))]
fn row_of(t: u64, values: [i64; VALUES]) -> Row
    ensures { result ≡ row_of t values }
{
    Row {
        second: t,
        state: values[0],
        limitConsumption: values[1],
        limitProduction: values[2],
        setpointConsumption: values[3],
        setpointProduction: values[4],
        aConsumption: values[5],
        aProduction: values[6],
        bConsumption: values[7],
        bProduction: values[8],
        cConsumption: values[9],
        cProduction: values[10],
    }
}

fn record_at(d: &State, t: u64) -> Row
    ensures { result ≡ record_at (situation_of d.now) t }
{
    row_of(t, values_at(d, t))
}

// The record of the first row, and of the row after a record's. Past the last row it is of no use, and not written.
#[tactic(auto, unfolding(crate::specs::Records::record_after))]
pub fn first_record(d: &State) -> Row
    ensures { result ≡ record_after d.now (clock_of d.now) }
{
    record_at(d, next_row(d, clock(d)))
}

#[tactic(auto, unfolding(crate::specs::Records::record_after))]
pub fn next_record(d: &State, last: Row) -> Row
    ensures { result ≡ record_after d.now last.second }
{
    record_at(d, next_row(d, last.second))
}

// The answer where there is room for so many records.
#[tactic(auto, using(crate::proofs::Fill::answers))]
pub fn planned(d: &State, room: usize) -> Planned
    ensures { result ≡ plain_answer d.now room }
{
    let n = count(d);
    if room < n {
        Planned {
            number: NO_SPACE,
            count: 0,
        }
    } else {
        Planned {
            number: 0,
            count: n,
        }
    }
}
