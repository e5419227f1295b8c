// The seconds at which what holds may change: each expiry held, and the failsafe end; and the next of them.
ghost use Rattle.std.specs.Prelude.{◌≡◌};
ghost use Rattle.device_store.specs.Words.{zones_of};
ghost use Rattle.device_holds.specs.Holds.{situation_of};
ghost use Rattle.device_holds.specs.Dues.{nearer, nearest};
ghost use Rattle.plan_plain.specs.Candidates.{expiry_at, failsafe_end, candidate_at, candidates_of};

use device_store::{END, HELDS, SLOTS, State, held_at, id_at, settings_at, since};

// The expiries, and how many candidates there are with the failsafe end.
const EXPIRIES: usize = SLOTS * HELDS;

const CANDIDATES: usize = EXPIRIES + 1;

// When quantity q of the zone in slot i ends, 0 where the slot is free or nothing is held.
#[tactic(auto, unfolding(crate::specs::Candidates::expiry_at, device_store::specs::Zones::is_joined))]
fn expiry(d: &State, i: usize, q: usize) -> u64
    ensures { result ≡ expiry_at (zones_of d.now) i q }
{
    if id_at(d, i) == 0 {
        0
    } else {
        held_at(d, i, q).until
    }
}

// The failsafe end, END where it lies past it. The sum of any two words could pass the largest.
#[tactic(auto, unfolding(crate::specs::Candidates::failsafe_end))]
fn failsafe_end(since: u64, duration: u64) -> u64
    ensures { result ≡ failsafe_end since duration }
{
    since.saturating_add(duration).min(END)
}

// Candidate k: the expiries slot by slot, then the failsafe end.
#[tactic(auto, unfolding(crate::specs::Candidates::candidate_at))]
fn candidate(d: &State, k: usize) -> u64
    ensures { result ≡ candidate_at (situation_of d.now) k }
{
    if k < EXPIRIES {
        expiry(d, k / HELDS, k % HELDS)
    } else {
        failsafe_end(since(d), settings_at(d).duration)
    }
}

// The nearer of `best` and, where it lies past t, c.
#[tactic(auto, unfolding(device_store::specs::Smaller::nearer))]
fn nearer(t: u64, best: u64, c: u64) -> u64
    ensures { result ≡ nearer t best c }
{
    if t < c && c < best { c } else { best }
}

// The least candidate past t, END where there is none before it.
pub fn next_after(d: &State, t: u64) -> u64
    ensures { result ≡ nearest t (candidates_of (situation_of d.now)) }
{
    let mut best = END;
    for k in 0..CANDIDATES {
        best = nearer(t, best, candidate(d, k));
    }
    best
}
