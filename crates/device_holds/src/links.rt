// Which links are up, and since when none is.
ghost use Rattle.std.specs.Prelude.{◌≡◌, get_or, set};
ghost use Rattle.device_store.specs.Zones.{free_zone, is_up, any_up};
ghost use Rattle.device_holds.specs.Links.{link_row};
ghost use Rattle.device_store.specs.Words.{since_of, zones_of};
ghost use Rattle.device_holds.specs.Links.{since_after};

use device_store::{ReadSlots, SLOTS, State, WithZone, Zone, free_zone, since};

#[tactic(auto, unfolding(device_store::specs::Zones::is_up, device_store::specs::Zones::is_joined))]
fn is_up<S: ReadSlots>(s: &S, slot: usize) -> bool
    ensures { result ≡ is_up (get_or (S.zones s.now) slot free_zone) }
{
    s.id(slot) != 0 && s.up(slot)
}

// The row of the table of links: 2 where a link is up, 1 where zones are joined and none is up, 0 where none is joined.
fn row_of<S: ReadSlots>(s: &S) -> u64
    ensures { result ≡ link_row (S.zones s.now) }
{
    let mut r = 0;
    for i in 0..SLOTS {
        if s.id(i) != 0 {
            if s.up(i) {
                return 2;
            }
            r = 1;
        }
    }
    r
}

// The row as the slots stand.
pub fn link_row(d: &State) -> u64
    ensures { result ≡ link_row (zones_of d.now) }
{
    row_of(d)
}

// The row with the given record in its slot's place.
pub fn link_row_with(d: &State, slot: usize, zone: Zone) -> u64
    ensures { result ≡ link_row (set (zones_of d.now) slot zone) }
{
    row_of(&WithZone {
        device: d,
        slot,
        zone,
    })
}

fn any_up<S: ReadSlots>(s: &S) -> bool
    ensures { result ≡ any_up (S.zones s.now) }
{
    (0..SLOTS).any(|i| is_up(s, i))
}

fn any_up_without(d: &State, slot: usize) -> bool
    ensures { result ≡ any_up (set (zones_of d.now) slot free_zone) }
{
    any_up(&WithZone {
        device: d,
        slot,
        zone: free_zone(),
    })
}

// Since when no link is up, once this slot's link is lost or its zone leaves at t.
pub fn since_without(d: &State, slot: usize, t: u64) -> u64
    ensures { result ≡ since_after (zones_of d.now) (set (zones_of d.now) slot free_zone) t (since_of d.now) }
{
    if is_up(d, slot) && !any_up_without(d, slot) {
        t
    } else {
        since(d)
    }
}
