// The next row of the plan after a second: for a driver that sleeps until the next change, or walks a plan without a buffer.
#![tactic(auto)]

ghost use Rattle.std.specs.Prelude.{◌≡◌, ◌∷◌, ◌<◌, pos};
ghost use Rattle.device_store.specs.Sizes.{end};
ghost use Rattle.device_holds.specs.Holds.{situation_of};
ghost use Rattle.plan.specs.Plan.{plan_of};
ghost use Rattle.plan_next.specs.Next.{first_row, row_numbers, next_said, next_answer};

use device_holds::{alike, view_at};
use device_rules::is_late;
use device_store::{END, State, VALUES, clock};
use plan::ROW;
use refusals::Refusal;

// A second, and its values behind it.
fn row_of(t: u64, values: [i64; VALUES]) -> [i64; ROW]
    requires { t < end }
    ensures { result ≡ pos t ∷ values }
{
    let mut row = [t as i64; ROW];
    row[1..].copy_from_slice(&values);
    row
}

// Walks from due to due, up to the first second whose values differ from the last.
fn first_change(d: &State, t: u64) -> Option<[i64; ROW]>
    ensures { result ≡ row_numbers (first_row (plan_of (situation_of d.now) t)) }
{
    let mut v = view_at(d, t);
    // By hand: it goes from due second to due second, and no list holds those.
    while v.next < END {
        let w = view_at(d, v.next);
        if !alike(w.values, v.values) {
            return Some(row_of(v.next, w.values));
        }
        v = w;
    }
    None
}

// The first row of the plan with a second above t, if there is one: 5 before the device's own second and past the end.
#[tactic(auto, using(crate::proofs::Later::answers))]
pub fn next_row(d: &State, t: u64) -> Result<Option<[i64; ROW]>, Refusal>
    ensures { next_said result ≡ next_answer d.now t }
{
    let own = clock(d);
    if is_late(own, t) {
        return Err(Refusal::BadTime);
    }
    Ok(first_change(d, t))
}
