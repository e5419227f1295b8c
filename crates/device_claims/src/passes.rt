// The passes over the zones: the smallest power and current limits, the setpoints of the first precedences, and the next second at
// which one of them ends.
ghost use Rattle.std.specs.Prelude.{◌≡◌, ◌<◌, ◌≤◌, get_or, set};
ghost use mathlib.Core.List.{foldl};
ghost use Rattle.device_store.specs.Quantities.{lowest_values, leading_setpoints, low_at, lead_at};
ghost use Rattle.device_store.specs.Sizes.{slots, most, end};
ghost use Rattle.device_store.specs.Zones.{free_zone};
ghost use Rattle.device_store.specs.Words.{zones_of};
ghost use Rattle.device_claims.specs.Claim.{no_claim, winner};
ghost use Rattle.device_claims.specs.Ends.{zone_dues, low_dues, lead_dues};
ghost use Rattle.device_store.specs.Smaller.{nearer};
ghost use Rattle.device_claims.specs.Pass.{low_step, lead_step, LowestValuesMet, LeadingSetpointsMet, Adds};

use device_store::{
    END, Held, LEADING_SETPOINTS, LIMITS, LOWEST_VALUES, MOST, ReadSlots, SETPOINTS, SLOTS, State,
    WithZone, Zone, least,
};

// The smallest value of each quantity that goes by it, met so far. MOST is none.
#[derive(Clone, Copy)]
pub struct LowestValues {
    pub low: [u64; LOWEST_VALUES],
    pub next: u64,
}

// The first precedence of each setpoint, met so far, and its value. MOST is none.
#[derive(Clone, Copy)]
pub struct LeadingSetpoints {
    pub precedence: [u64; LEADING_SETPOINTS],
    pub lead: [u64; LEADING_SETPOINTS],
    pub next: u64,
}

// The k-th quantity that goes by the smallest: the setpoints stand between.
#[tactic(auto, unfolding(device_store::specs::Quantities::low_at))]
fn low_at(k: usize) -> usize
    requires { k < lowest_values }
    ensures { result ≡ low_at k }
{
    if k < LIMITS { k } else { k + SETPOINTS }
}

// One value of limit k more.
#[tactic(auto, unfolding(crate::specs::Pass::low_step, device_store::specs::Smaller::nearer, device_store::specs::Smaller::lesser))]
fn low_with(t: u64, h: Held, k: usize, g: LowestValues) -> LowestValues
    requires { k < lowest_values }
    ensures value { result ≡ low_step t h k g }
    ensures value_le_most { h.value ≤ most }
{
    if t < h.until {
        let mut low = g.low;
        low[k] = least(h.value, low[k]);
        return LowestValues {
            low,
            next: least(g.next, h.until),
        };
    }
    g
}

// One value of setpoint k more. A later precedence takes the place of an equal one, so that the first of all needs no test of its own.
#[tactic(auto, unfolding(crate::specs::Pass::lead_step, crate::specs::Pass::takes, device_store::specs::Smaller::nearer, device_store::specs::Smaller::lesser))]
fn lead_with(t: u64, h: Held, precedence: u64, k: usize, g: LeadingSetpoints) -> LeadingSetpoints
    requires { k < leading_setpoints }
    ensures value { result ≡ lead_step t h precedence k g }
    ensures precedence_le_most { precedence ≤ most }
{
    if t < h.until {
        let mut precedences = g.precedence;
        let mut lead = g.lead;
        if precedence <= precedences[k] {
            precedences[k] = precedence;
            lead[k] = h.value;
        }
        return LeadingSetpoints {
            precedence: precedences,
            lead,
            next: least(g.next, h.until),
        };
    }
    g
}

// The limits of a slot's zone more, read word by word. A free slot claims nothing.
fn low_slot<S: ReadSlots>(s: &S, i: usize, t: u64, start: LowestValues) -> LowestValues
    ensures adds { Adds LowestValuesMet t (get_or (S.zones s.now) i free_zone) start result }
    ensures next_value { result.next ≡ foldl (nearer t) start.next (zone_dues low_at lowest_values (get_or (S.zones s.now) i free_zone)) }
{
    if s.id(i) == 0 {
        return start;
    }
    let mut g = start;
    for k in 0..LOWEST_VALUES {
        g = low_with(t, s.held(i, low_at(k)), k, g);
    }
    g
}

// Its setpoints more.
fn lead_slot<S: ReadSlots>(s: &S, i: usize, t: u64, start: LeadingSetpoints) -> LeadingSetpoints
    ensures adds { Adds LeadingSetpointsMet t (get_or (S.zones s.now) i free_zone) start result }
    ensures next_value { result.next ≡ foldl (nearer t) start.next (zone_dues lead_at leading_setpoints (get_or (S.zones s.now) i free_zone)) }
{
    if s.id(i) == 0 {
        return start;
    }
    let mut g = start;
    for k in 0..LEADING_SETPOINTS {
        g = lead_with(t, s.held(i, LIMITS + k), s.precedence(i), k, g);
    }
    g
}

fn no_lowest_values(next: u64) -> LowestValues
    ensures lowest_values_met { LowestValuesMet result (λ q. no_claim) }
    ensures next_value { result.next ≡ next }
{
    LowestValues {
        low: [MOST; LOWEST_VALUES],
        next,
    }
}

fn no_leading_setpoints(next: u64) -> LeadingSetpoints
    ensures leading_setpoints_met { LeadingSetpointsMet result (λ q. no_claim) }
    ensures next_value { result.next ≡ next }
{
    LeadingSetpoints {
        precedence: [MOST; LEADING_SETPOINTS],
        lead: [MOST; LEADING_SETPOINTS],
        next,
    }
}

// The pass over the limits of all slots; `next` is the nearest end known before it.
// Two passes and no trait over both: a trait would need their numbers, step, order and laws, for two loops of three lines.
fn lowest_values<S: ReadSlots>(s: &S, t: u64, next: u64) -> LowestValues
    ensures lowest_values_met { LowestValuesMet result (λ q. winner t q (S.zones s.now)) }
    ensures next_value { result.next ≡ foldl (nearer t) next (low_dues (S.zones s.now)) }
{
    let mut g = no_lowest_values(next);
    for i in 0..SLOTS {
        g = low_slot(s, i, t, g);
    }
    g
}

// The pass over their setpoints.
fn leading_setpoints<S: ReadSlots>(s: &S, t: u64, next: u64) -> LeadingSetpoints
    ensures leading_setpoints_met { LeadingSetpointsMet result (λ q. winner t q (S.zones s.now)) }
    ensures next_value { result.next ≡ foldl (nearer t) next (lead_dues (S.zones s.now)) }
{
    let mut g = no_leading_setpoints(next);
    for i in 0..SLOTS {
        g = lead_slot(s, i, t, g);
    }
    g
}

// The limits of the zones as they stand.
pub fn lowest_values_at(d: &State, t: u64, next: u64) -> LowestValues
    ensures lowest_values_met { LowestValuesMet result (λ q. winner t q (zones_of d.now)) }
    ensures next_value { result.next ≡ foldl (nearer t) next (low_dues (zones_of d.now)) }
{
    lowest_values(d, t, next)
}

// Their setpoints.
pub fn leading_setpoints_at(d: &State, t: u64, next: u64) -> LeadingSetpoints
    ensures leading_setpoints_met { LeadingSetpointsMet result (λ q. winner t q (zones_of d.now)) }
    ensures next_value { result.next ≡ foldl (nearer t) next (lead_dues (zones_of d.now)) }
{
    leading_setpoints(d, t, next)
}

// The limits with the given record in its slot's place.
pub fn lowest_values_with(d: &State, slot: usize, zone: Zone, t: u64) -> LowestValues
    ensures lowest_values_met { LowestValuesMet result (λ q. winner t q (set (zones_of d.now) slot zone)) }
    ensures next_value { result.next ≡ foldl (nearer t) end (low_dues (set (zones_of d.now) slot zone)) }
{
    let s = WithZone {
        device: d,
        slot,
        zone,
    };
    lowest_values(&s, t, END)
}

// The setpoints with it.
pub fn leading_setpoints_with(d: &State, slot: usize, zone: Zone, t: u64) -> LeadingSetpoints
    ensures leading_setpoints_met { LeadingSetpointsMet result (λ q. winner t q (set (zones_of d.now) slot zone)) }
    ensures next_value { result.next ≡ foldl (nearer t) end (lead_dues (set (zones_of d.now) slot zone)) }
{
    let s = WithZone {
        device: d,
        slot,
        zone,
    };
    leading_setpoints(&s, t, END)
}
