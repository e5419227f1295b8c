// The rows: a second, the control state, then each quantity.
ghost use Rattle.std.specs.Prelude.{◌≡◌, ◌∷◌, ◌+◌, ◌*◌, ◌<◌, ◌≤◌, pos, length};
ghost use Rattle.std.proofs.lemmas.List.Edits.{sets};
ghost use Rattle.device_store.specs.Sizes.{end};
ghost use Rattle.device_holds.specs.Holds.{situation_of};
ghost use Rattle.plan.specs.Plan.{plan_of, row_size, numbers_of};

use device_holds::{alike, view_at};
use device_store::{END, HELDS, SLOTS, State, VALUES};

// The numbers of a row, the most rows that a plan can have, and the numbers of the longest plan.
pub const ROW: usize = 1 + VALUES;

pub const ROWS: usize = SLOTS * HELDS;

pub const PLAN: usize = ROWS * ROW;

fn put_row(out: &mut [i64], at: usize, t: u64, values: [i64; VALUES])
    requires row_size_in_bounds { at + row_size ≤ length out.old }
    requires t_lt_end { t < end }
    ensures { out.new ≡ sets out.old at (pos t ∷ values) }
{
    out[at] = t as i64;
    // By hand: `copy_from_slice` lowers to a form of module that bin/archive does not know, and so no board would build.
    for (i, v) in values.iter().enumerate() {
        out[at + 1 + i] = *v;
    }
}

// Walks from due to due, and writes a row where the values differ from the last: how many rows stand at the front of `out`.
pub fn find(d: &State, t: u64, out: &mut [i64]) -> usize
    requires { length (plan_of (situation_of d.now) t) * row_size ≤ length out.old }
    ensures value { result ≡ length (plan_of (situation_of d.now) t) }
    ensures out_after { out.new ≡ sets out.old 0 (numbers_of (plan_of (situation_of d.now) t)) }
{
    let mut count = 0;
    let mut v = view_at(d, t);
    // By hand: it goes from due second to due second, and no list holds those.
    while v.next < END {
        let w = view_at(d, v.next);
        if !alike(w.values, v.values) {
            put_row(out, count * ROW, v.next, w.values);
            count += 1;
        }
        v = w;
    }
    count
}
