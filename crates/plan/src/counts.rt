// How many rows a plan has, before any is written.
ghost use Rattle.std.specs.Prelude.{◌≡◌, length};
ghost use Rattle.device_holds.specs.Holds.{situation_of};
ghost use Rattle.plan.specs.Plan.{plan_of};

use device_holds::{alike, view_at};
use device_store::{END, State};

// The same walk as the one that writes, so that a plan without room is refused before a number is written.
pub fn count(d: &State, t: u64) -> usize
    ensures { result ≡ length (plan_of (situation_of d.now) t) }
{
    let mut n = 0;
    let mut v = view_at(d, t);
    // By hand: it goes from due second to due second, and no list holds those.
    while v.next < END {
        let w = view_at(d, v.next);
        if !alike(w.values, v.values) {
            n += 1;
        }
        v = w;
    }
    n
}
