// The slots read one by one: as they stand in the words, or with another record in the place of one.
ghost use Rattle.std.specs.Prelude.{◌≡◌, ◌&&◌, List, get_or, set, length, ltb, eqb};
ghost use Rattle.device_store.specs.declared.Zone.{Zone};
ghost use Rattle.device_store.specs.Sizes.{slots};
ghost use Rattle.device_store.specs.Zones.{id_of, free_zone, held_of};
ghost use Rattle.device_store.specs.Words.{zones_of};
ghost use Rattle.device_store.specs.Counts.{zones_length, placed_length};

use crate::lenses::{held_at, precedence_at, up_at};
use crate::quantities::HELDS;
use crate::{Held, IDS, NOTHING, SLOTS, State, Zone};

// Past the last slot each reads as a free one.
pub trait ReadSlots {
    ghost zones: { Self → List Zone };

    fn precedence(&self, slot: usize) -> u64
        ensures { result ≡ (get_or (zones self.now) slot free_zone).precedence };

    fn up(&self, slot: usize) -> bool
        ensures { result ≡ (get_or (zones self.now) slot free_zone).up };

    fn held(&self, slot: usize, q: usize) -> Held
        ensures { result ≡ held_of (get_or (zones self.now) slot free_zone) q };

    // The id in a slot, 0 in a free one.
    #[tactic(auto, unfolding(crate::specs::Zones::id_of))]
    fn id(&self, slot: usize) -> u64
        ensures { result ≡ id_of (get_or (zones self.now) slot free_zone) }
    {
        self.precedence(slot) % IDS
    }

    ghost all_slots: { (s : Self) → length (zones s) ≡ slots };
}

impl ReadSlots for State {
    ghost zones = { zones_of };

    ghost all_slots = { zones_length };

    fn precedence(&self, slot: usize) -> u64 {
        precedence_at(self, slot)
    }

    fn up(&self, slot: usize) -> bool {
        up_at(self, slot)
    }

    fn held(&self, slot: usize, q: usize) -> Held {
        held_at(self, slot, q)
    }
}

// The slots with the given record in the place of `slot`; SLOTS and above are no slot.
#[derive(Drop)]
pub struct WithZone<'a> {
    pub device: &'a State,
    pub slot: usize,
    pub zone: Zone,
}

impl WithZone<'_> {
    fn is_at(&self, slot: usize) -> bool
        ensures { result ≡ (ltb slot slots && eqb slot self.now.slot) }
    {
        slot < SLOTS && slot == self.slot
    }
}

impl ReadSlots for WithZone<'_> {
    ghost zones = { λ p. set (zones_of p.device.now) p.slot p.zone };

    ghost all_slots = { λ p. placed_length p.device.now p.slot p.zone };

    fn precedence(&self, slot: usize) -> u64 {
        if self.is_at(slot) {
            return self.zone.precedence;
        }
        precedence_at(self.device, slot)
    }

    fn up(&self, slot: usize) -> bool {
        if self.is_at(slot) {
            return self.zone.up;
        }
        up_at(self.device, slot)
    }

    fn held(&self, slot: usize, q: usize) -> Held {
        if self.is_at(slot) {
            return if q < HELDS {
                self.zone.held[q]
            } else {
                NOTHING
            };
        }
        held_at(self.device, slot, q)
    }
}
