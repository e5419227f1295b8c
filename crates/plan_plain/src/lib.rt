// The plan made the slow way, for the bench: its rows as records. It shares nothing with the first planner but what holds at a
// second, and the device is lent unchangeable.
#![tactic(auto)]

mod records;
mod rows;
mod candidates; // candidates.rt: the seconds at which what holds may change

ghost use Rattle.std.specs.Prelude.{◌≡◌, length};
ghost use Rattle.plan_plain.specs.Records.{plain_answer, plain_slice};

use device_store::State;
pub use records::{first_record, next_record, planned as plain_answer};

// A row of the plan: the second, the control state from then on, and each quantity, -1 where it is absent.
#[repr(C)]
#[derive(Clone, Copy)]
pub struct Row {
    pub second: u64,
    pub state: i64,
    pub limitConsumption: i64,
    pub limitProduction: i64,
    pub setpointConsumption: i64,
    pub setpointProduction: i64,
    pub aConsumption: i64,
    pub aProduction: i64,
    pub bConsumption: i64,
    pub bProduction: i64,
    pub cConsumption: i64,
    pub cProduction: i64,
}

// The answer: its number, and the count of rows written.
#[repr(C)]
#[derive(Clone, Copy)]
pub struct Planned {
    pub number: u64,
    pub count: usize,
}

// The thin writer. How many rows fit is known before the first is written; past the count nothing is touched.
pub fn plain_plan(d: &State, rows: &mut [Row]) -> Planned
    ensures { (result ≡ plain_answer d.now (length rows.old)) × (rows.new ≡ plain_slice d.now rows.old) }
{
    let p = records::planned(d, rows.len());
    let mut r = records::first_record(d);
    for i in 0..p.count {
        rows[i] = r;
        r = records::next_record(d, r);
    }
    p
}
