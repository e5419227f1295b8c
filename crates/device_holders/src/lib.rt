// Who holds each value at a second: the best-placed zone whose own value it is, the failsafe, or nobody.
#![tactic(auto)]

ghost use Rattle.std.specs.Prelude.{◌≡◌, ◌+◌, ◌<◌, ltb, get_or};
ghost use Rattle.device_store.specs.Sizes.{helds, slots};
ghost use Rattle.device_store.specs.Zones.{up_to, free_zone, is_joined};
ghost use Rattle.device_store.specs.Words.{zones_of};
ghost use Rattle.device_holds.specs.Holds.{situation_of};
ghost use Rattle.device_holders.specs.Holders.{holds_value, better_placed, best_placed, named, holder_of, holder_at, nobody, holders_said, holders_answer};

use device_holds::values_at;
use device_rules::is_late;
use device_store::{
    HELDS, IDS, SLOTS, State, clock, held_at, id_at, precedence_at, settings_at, since,
};
use refusals::Refusal;

// Who holds a value: NOBODY, a zone's id, or BY_FAILSAFE; and the second from which it holds no longer on its own.
#[repr(C)]
#[derive(Clone, Copy)]
pub struct Holder {
    pub who: u64,
    pub until: u64,
}

pub const NOBODY: u64 = 0;

pub const BY_FAILSAFE: u64 = IDS;

const NONE: Holder = Holder {
    who: NOBODY,
    until: 0,
};

// Whether the zone in a slot has an own value v of quantity q that holds at t. Few have that value: it is tested first.
#[tactic(auto, unfolding(crate::specs::Holders::holds_value, device_store::specs::Zones::is_joined))]
fn holds_value(d: &State, slot: usize, t: u64, q: usize, v: u64) -> bool
    ensures { result ≡ holds_value t q v (get_or (zones_of d.now) slot free_zone) }
{
    let h = held_at(d, slot, q);
    h.value == v && t < h.until && id_at(d, slot) != 0
}

// The best-placed slot so far, and slot i beside it. SLOTS is none.
fn better_placed(d: &State, best: usize, i: usize, t: u64, q: usize, v: u64) -> usize
    requires i_lt_slots { i < slots }
    requires best_joined { is_joined (get_or (zones_of d.now) best free_zone) ≡ ltb best slots }
    ensures placed { get_or (zones_of d.now) result free_zone ≡ better_placed (holds_value t q v) (get_or (zones_of d.now) best free_zone) (get_or (zones_of d.now) i free_zone) }
    ensures placed_joined { is_joined (get_or (zones_of d.now) result free_zone) ≡ ltb result slots }
{
    if holds_value(d, i, t, q, v) {
        if best < SLOTS {
            if precedence_at(d, i) < precedence_at(d, best) {
                return i;
            }
            return best;
        }
        return i;
    }
    best
}

// The slot of the best-placed zone that holds v, SLOTS where none does.
fn best_placed(d: &State, t: u64, q: usize, v: u64) -> usize
    ensures { get_or (zones_of d.now) result free_zone ≡ best_placed (holds_value t q v) (zones_of d.now) }
{
    // SLOTS is none, and no Option: it reads as a free slot, so that the search and `named` need no case for it.
    let mut best = SLOTS;
    for i in 0..SLOTS {
        best = better_placed(d, best, i, t, q, v);
    }
    best
}

// The zone in a slot with the end of its value; the failsafe with its own end where no zone has it.
fn named(d: &State, q: usize, slot: usize) -> Holder
    ensures { result ≡ named (situation_of d.now) q (get_or (zones_of d.now) slot free_zone) }
{
    let id = id_at(d, slot);
    if id == 0 {
        return Holder {
            who: BY_FAILSAFE,
            until: since(d).saturating_add(settings_at(d).duration),
        };
    }
    Holder {
        who: id,
        until: held_at(d, slot, q).until,
    }
}

// Who holds what is shown of quantity q: -1 is absent.
fn holder_of(d: &State, t: u64, q: usize, v: i64) -> Holder
    ensures { result ≡ holder_of (situation_of d.now) t q v }
{
    if v < 0 {
        return NONE;
    }
    named(d, q, best_placed(d, t, q, v as u64))
}

// Who holds each quantity at t.
fn holders_at(d: &State, t: u64) -> [Holder; HELDS]
    ensures { result ≡ up_to (holder_at (situation_of d.now) t) helds }
{
    let vs = values_at(d, t);
    let mut hs = [NONE; HELDS];
    for q in 0..HELDS {
        let h = holder_of(d, t, q, vs[q + 1]);
        hs[q] = h;
    }
    hs
}

// Who holds each quantity at t, if only the clock moved up to then: 5 before the device's own second and past the end.
pub fn holders(d: &State, t: u64) -> Result<[Holder; HELDS], Refusal>
    ensures { holders_said result ≡ holders_answer d.now t }
{
    if is_late(clock(d), t) {
        return Err(Refusal::BadTime);
    }
    Ok(holders_at(d, t))
}
