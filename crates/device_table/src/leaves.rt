// The leaves of the table of links, over plain numbers: what is shown of a number, the row of all quantities, the end of the
// failsafe.
ghost use Rattle.std.specs.Prelude.{◌≡◌, ◌+◌, ◌<◌, ◌≤◌, ltb, length};
ghost use Rattle.device_store.specs.Quantities.{helds};
ghost use Rattle.device_store.specs.Sizes.{end, value_end};
ghost use Rattle.device_table.specs.Edges.{shown};
ghost use Rattle.device_store.specs.Smaller.{nearer};
ghost use Rattle.device_table.specs.Leaves.{top_of, shown_below, number_in, shown_in, Filled};
ghost use Rattle.device_store.specs.Smaller.{lesser};

use device_store::{
    CURRENTS, END, HELDS, LEADING_SETPOINTS, LIMITS, LOWEST_VALUES, SETPOINTS, VALUE_END, VALUES,
    supports,
};

// A value at the edges: -1 where it is absent, or too large to be one.
#[tactic(auto, unfolding(crate::specs::Edges::shown))]
pub fn shown(a: Option<u64>) -> i64
    ensures { result ≡ shown a }
{
    match a {
        Some(v) if v < VALUE_END => v as i64,
        _ => -1,
    }
}

// The first number that is not shown in a direction: 0 where it is not supported.
#[tactic(auto, unfolding(crate::specs::Leaves::top_of))]
fn top_of(has: u64, d: u64) -> u64
    ensures { result ≡ top_of has d }
{
    if supports(has, d) { VALUE_END } else { 0 }
}

#[tactic(auto, unfolding(crate::specs::Leaves::shown_below))]
fn shown_below(top: u64, v: u64) -> i64
    requires { top ≤ value_end }
    ensures { result ≡ shown_below top v }
{
    if v < top { v as i64 } else { -1 }
}

// What the passes have met for quantity q.
#[tactic(auto, unfolding(crate::specs::Leaves::number_in))]
fn number_of(low: [u64; LOWEST_VALUES], lead: [u64; LEADING_SETPOINTS], q: usize) -> u64
    requires { q < helds }
    ensures { result ≡ number_in low lead q }
{
    if q < LIMITS {
        return low[q];
    }
    if q < CURRENTS {
        return lead[q - LIMITS];
    }
    low[q - SETPOINTS]
}

// A row behind its first place. A bound for each direction stands for a test for each value.
pub fn row(has: u64, low: [u64; LOWEST_VALUES], lead: [u64; LEADING_SETPOINTS]) -> [i64; VALUES]
    ensures { (length result ≡ 1 + helds) × Filled (shown_in has low lead) result helds }
{
    let tops = [top_of(has, 0), top_of(has, 1)];
    let mut v = [-1; VALUES];
    for q in 0..HELDS {
        v[q + 1] = shown_below(tops[q % 2], number_of(low, lead, q));
    }
    v
}

// The end is tested by a difference: a sum could pass the largest word.
pub fn failsafe_holds(since: u64, duration: u64, t: u64) -> bool
    ensures { result ≡ ltb t (since + duration) }
{
    t < since || t - since < duration
}

#[tactic(auto, unfolding(device_store::specs::Smaller::nearer))]
fn nearer(cur: u64, r: u64, e: u64) -> u64
    ensures { result ≡ nearer cur r e }
{
    if cur < e && e < r { e } else { r }
}

// A failsafe that ends past the end of time does not end, so a sum past the largest word may stay at that word.
pub fn failsafe_end(since: u64, duration: u64, cur: u64) -> u64
    ensures { result ≡ nearer cur end (since + duration) }
{
    nearer(cur, END, since.saturating_add(duration))
}
