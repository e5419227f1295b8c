// The plan: each second after now at which what holds will change, and what holds from then on.
#![tactic(auto)]

mod counts;
mod rows;

ghost use Rattle.std.specs.Prelude.{◌≡◌, ◌*◌, leb, length};
ghost use Rattle.device_holds.specs.Holds.{situation_of};
ghost use Rattle.plan.specs.Plan.{plan_of, row_size, plan_answer, plan_slice};

use device_store::{State, clock};
use refusals::NO_SPACE;
pub use rows::{PLAN, ROW};

// The answer to a plan: its number, and the count of rows written.
#[repr(C)]
#[derive(Clone, Copy)]
pub struct Planned {
    pub number: u64,
    pub count: u64,
}

// Whether the rows have room. They are counted only where not every plan would have it.
fn has_room(d: &State, t: u64, room: usize) -> bool
    ensures { result ≡ leb (length (plan_of (situation_of d.now) t) * row_size) room }
{
    PLAN <= room || counts::count(d, t) * ROW <= room
}

// The rows go straight into the lent slice: that they have room is known before the first is written. The device is
// lent without the right to change it: nothing moves.
pub fn plan(d: &State, rows: &mut [i64]) -> Planned
    ensures value { result ≡ plan_answer d.now (length rows.old) }
    ensures rows_after { rows.new ≡ plan_slice d.now rows.old }
{
    let t = clock(d);
    if has_room(d, t, rows.len()) {
        Planned {
            number: 0,
            count: rows::find(d, t, rows) as u64,
        }
    } else {
        Planned {
            number: NO_SPACE,
            count: 0,
        }
    }
}
