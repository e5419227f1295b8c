// The layout of the words, read: no room above knows it.
ghost use Rattle.std.specs.Prelude.{◌≡◌, cond, ◌+◌, ◌*◌, ◌<◌, ltb, get_or};
ghost use Rattle.device_store.specs.Sizes.{helds, slots, zone_size, words};
ghost use Rattle.device_store.specs.Zones.{up_to, id_of, free_zone, slot_of, joined, held_of};
ghost use Rattle.device_store.specs.Words.{clock_of, since_of, override_of, settings_of, base, held_in, zones_of};

use crate::quantities::HELDS;
use crate::{HEAD, Held, IDS, NOTHING, SLOTS, Settings, State, WORDS, ZONE, Zone};
use std::array;

// A copy: an array by value, whose length the proof knows. Where nothing reads it, it leaves no code.
pub fn all(d: &State) -> State
    ensures { result ≡ d.now }
{
    *d
}

// A word, 0 past the last. By index: an optional reference has another layout where pointers have 32 bits.
fn word(d: &State, i: usize) -> u64
    ensures { result ≡ get_or d.now i 0 }
{
    let _a = all(d);
    if i < WORDS { d[i] } else { 0 }
}

// The second of the last accepted call.
pub fn clock(d: &State) -> u64
    ensures { result ≡ clock_of d.now }
{
    word(d, 0)
}

// The second since which no link is up.
pub fn since(d: &State) -> u64
    ensures { result ≡ since_of d.now }
{
    word(d, 1)
}

// The override as one number, 0 where none is set.
pub fn overridden(d: &State) -> u64
    ensures { result ≡ override_of d.now }
{
    word(d, 2)
}

// The settings that the device started with.
pub fn settings_at(d: &State) -> Settings
    ensures { result ≡ settings_of d.now }
{
    Settings {
        directions: word(d, 3),
        limits: 0 < word(d, 4),
        setpoints: 0 < word(d, 5),
        minimum: word(d, 6),
        maxima: [word(d, 7), word(d, 8)],
        failsafe: [word(d, 9), word(d, 10)],
        duration: word(d, 11),
        manager: 0 < word(d, 12),
        phases: word(d, 13),
        currents: 0 < word(d, 14),
    }
}

// Whether the device is an energy manager: the one setting that an override asks for.
pub fn is_manager(d: &State) -> bool
    ensures { result ≡ (settings_of d.now).manager }
{
    0 < word(d, 12)
}

// Held value q of those that start at word p.
fn held_in(d: &State, p: usize, q: usize) -> Held
    requires { (p < words) × (q < helds) }
    ensures { result ≡ held_in d.now p q }
{
    let at = p + 2 * q;
    Held {
        value: word(d, at),
        until: word(d, at + 1),
    }
}

fn helds_in(d: &State, p: usize) -> [Held; HELDS]
    requires { p < words }
    ensures { result ≡ up_to (held_in d.now p) helds }
{
    array::from_fn(|q| held_in(d, p, q))
}

// The record of a slot that no zone has.
pub fn free_zone() -> Zone
    ensures { result ≡ free_zone }
{
    Zone {
        precedence: 0,
        up: false,
        held: [NOTHING; HELDS],
    }
}

// The whole record of a slot, the free one past the last slot.
pub fn zone_at(d: &State, slot: usize) -> Zone
    ensures { result ≡ get_or (zones_of d.now) slot free_zone }
{
    if slot < SLOTS {
        let at = HEAD + slot * ZONE;
        return Zone {
            precedence: word(d, at),
            up: 0 < word(d, at + 1),
            held: helds_in(d, at + 2),
        };
    }
    free_zone()
}

// Word k of a slot's record, 0 past the last slot: what a loop reads without the whole record.
fn part(d: &State, slot: usize, k: usize) -> u64
    requires { k < zone_size }
    ensures { result ≡ cond (ltb slot slots) (get_or d.now (base slot + k) 0) 0 }
{
    if slot < SLOTS {
        return word(d, HEAD + slot * ZONE + k);
    }
    0
}

// What a slot's zone set for quantity q; past the last slot or quantity, nothing.
pub fn held_at(d: &State, slot: usize, q: usize) -> Held
    ensures { result ≡ held_of (get_or (zones_of d.now) slot free_zone) q }
{
    if slot < SLOTS && q < HELDS {
        return held_in(d, HEAD + slot * ZONE + 2, q);
    }
    NOTHING
}

// The precedence in a slot, 0 in a free one.
pub fn precedence_at(d: &State, slot: usize) -> u64
    ensures { result ≡ (get_or (zones_of d.now) slot free_zone).precedence }
{
    part(d, slot, 0)
}

// The id in a slot, 0 in a free one.
pub fn id_at(d: &State, slot: usize) -> u64
    ensures { result ≡ id_of (get_or (zones_of d.now) slot free_zone) }
{
    part(d, slot, 0) % IDS
}

// Whether the link of a slot's zone is up.
pub fn up_at(d: &State, slot: usize) -> bool
    ensures { result ≡ (get_or (zones_of d.now) slot free_zone).up }
{
    0 < part(d, slot, 1)
}

// The first slot with this id, SLOTS where there is none. The search reads the ids alone.
pub fn slot_of(d: &State, id: u64) -> usize
    ensures { result ≡ slot_of (zones_of d.now) id }
{
    (0..SLOTS).position(|i| id_at(d, i) == id).unwrap_or(SLOTS)
}

// The slot of a joined zone, SLOTS of any other number.
pub fn slot_of_joined(d: &State, id: u64) -> usize
    ensures { result ≡ cond (ltb 0 id) (slot_of (zones_of d.now) id) slots }
{
    if id == 0 { SLOTS } else { slot_of(d, id) }
}

// Whether a zone is joined: 0 is no zone.
pub fn is_joined(d: &State, id: u64) -> bool
    ensures { result ≡ joined (zones_of d.now) id }
{
    slot_of_joined(d, id) < SLOTS
}
