// The calls without a frame: start, join, leave, lost, back, override, clear, ask, and the clock moved.
ghost use Rattle.std.specs.Prelude.{◌≡◌, true, false, ◌<◌, ◌≤◌, get_or, MatchResult};
ghost use Rattle.refusals.specs.Answers.{number_in};
ghost use Rattle.refusals.specs.declared.refusal.Refusal.{Refusal};
ghost use Rattle.device_rules.specs.Rules.{ranks, late};
ghost use Rattle.device_store.specs.Sizes.{ids};
ghost use Rattle.device_store.specs.Zones.{free_zone, new_zone, linked, slot_of, joined};
ghost use Rattle.device_store.specs.Words.{clock_of, zones_of};
ghost use Rattle.device_calls.specs.Calls.{join_number, join_after, leave_number, leave_after, link_number, link_after, since_told};
ghost use Rattle.device_calls.specs.Calls.{override_word, override_number, override_after, clear_number, clear_after, ask_answer, move_number, move_after};
ghost use Rattle.device_calls.specs.Start.{refused_settings, start_number, start_after};

use crate::{Change, HELDS, Held, MOST, SLOTS, Settings, State, VALUES, Zone};
use device_store::IDS;
use refusals::Refusal;

fn refused_settings() -> Settings
    ensures { result ≡ refused_settings }
{
    Settings {
        directions: 0,
        limits: false,
        setpoints: false,
        minimum: 0,
        maxima: [MOST; 2],
        failsafe: [0; 2],
        duration: 7200,
        manager: false,
        phases: 1,
        currents: false,
    }
}

// The second is neither before the clock nor past the end.
fn in_order(d: &State, t: u64) -> Result<(), Refusal>
    ensures { MatchResult result (λ _. late (clock_of d.now) t ≡ false) (λ e. (late (clock_of d.now) t ≡ true) × (e ≡ Refusal.BadTime)) }
{
    if device_rules::is_late(device_store::clock(d), t) {
        return Err(Refusal::BadTime);
    }
    Ok(())
}

// The slot of a zone that is joined.
fn slot_of_zone(d: &State, zone: u64) -> Result<usize, Refusal>
    ensures { MatchResult result
        (λ slot. (joined (zones_of d.now) zone ≡ true) × (slot ≡ slot_of (zones_of d.now) zone))
        (λ e. (joined (zones_of d.now) zone ≡ false) × (e ≡ Refusal.NotJoined)) }
{
    let slot = device_store::slot_of_joined(d, zone);
    if SLOTS <= slot {
        return Err(Refusal::NotJoined);
    }
    Ok(slot)
}

// A new device in the lent words, whatever stood there.
#[tactic(auto, unfolding(crate::specs::Start::start_number, crate::specs::Start::start_after, crate::specs::Refusals::first_of))]
pub fn start(d: &mut State, s: Settings) -> Result<(), Refusal>
    ensures value { number_in result ≡ start_number s }
    ensures d_after { d.new ≡ start_after s }
{
    if device_rules::is_bad_settings(s) {
        device_store::fresh(d, refused_settings());
        return Err(Refusal::BadSettings);
    }
    device_store::fresh(d, s);
    Ok(())
}

fn new_zone(zone: u64, rank: u64) -> Zone
    requires { (zone < ids) × (rank ≤ ranks) }
    ensures { result ≡ new_zone zone rank }
{
    Zone {
        precedence: rank * IDS + zone,
        up: true,
        held: [Held { value: 0, until: 0 }; HELDS],
    }
}

// A zone joins with a rank: a whole new record in the first free slot, its link up, nothing held.
pub fn join(d: &mut State, zone: u64, rank: u64, t: u64) -> Result<(), Refusal>
    ensures value { number_in result ≡ join_number d.old zone rank t }
    ensures d_after { d.new ≡ join_after d.old zone rank t }
{
    in_order(d, t)?;
    if device_rules::is_bad_join(zone, rank) {
        return Err(Refusal::BadZone);
    }
    if device_store::is_joined(d, zone) {
        return Err(Refusal::Already);
    }
    let slot = device_store::slot_of(d, 0);
    if SLOTS <= slot {
        return Err(Refusal::Full);
    }
    let change = Change {
        time: t,
        slot,
        zone: new_zone(zone, rank),
        since: device_store::since(d),
        overridden: device_store::overridden(d),
    };
    device_store::apply(d, change);
    Ok(())
}

// A zone leaves: its slot is free, and nothing of it stays for the next one there.
pub fn leave(d: &mut State, zone: u64, t: u64) -> Result<(), Refusal>
    ensures value { number_in result ≡ leave_number d.old zone t }
    ensures d_after { d.new ≡ leave_after d.old zone t }
{
    in_order(d, t)?;
    let slot = slot_of_zone(d, zone)?;
    let change = Change {
        time: t,
        slot,
        zone: device_store::free_zone(),
        since: device_holds::since_without(d, slot, t),
        overridden: device_store::overridden(d),
    };
    device_store::apply(d, change);
    Ok(())
}

// The zone in a slot with its link told to be up, or down.
fn told(d: &State, slot: usize, up: bool) -> Zone
    ensures { result ≡ linked (get_or (zones_of d.now) slot free_zone) up }
{
    Zone {
        up,
        ..device_store::zone_at(d, slot)
    }
}

// Since when no link is up, once this slot's is told to be.
fn since_told(d: &State, slot: usize, up: bool, t: u64) -> u64
    ensures { result ≡ since_told d.now slot up t }
{
    if up {
        device_store::since(d)
    } else {
        device_holds::since_without(d, slot, t)
    }
}

// A link is lost or back.
fn link(d: &mut State, zone: u64, up: bool, t: u64) -> Result<(), Refusal>
    ensures value { number_in result ≡ link_number d.old zone up t }
    ensures d_after { d.new ≡ link_after d.old zone up t }
{
    in_order(d, t)?;
    // By hand: out of a Result the compiler no longer knows that the slot is one, and copies the whole record.
    let slot = device_store::slot_of_joined(d, zone);
    if SLOTS <= slot {
        return Err(Refusal::NotJoined);
    }
    if device_store::up_at(d, slot) == up {
        return Err(Refusal::Already);
    }
    let change = Change {
        time: t,
        slot,
        zone: told(d, slot, up),
        since: since_told(d, slot, up, t),
        overridden: device_store::overridden(d),
    };
    device_store::apply(d, change);
    Ok(())
}

// A zone's link is lost; what it set stays.
pub fn lost(d: &mut State, zone: u64, t: u64) -> Result<(), Refusal>
    ensures value { number_in result ≡ link_number d.old zone false t }
    ensures d_after { d.new ≡ link_after d.old zone false t }
{
    link(d, zone, false, t)
}

// A zone's link is back.
pub fn back(d: &mut State, zone: u64, t: u64) -> Result<(), Refusal>
    ensures value { number_in result ≡ link_number d.old zone true t }
    ensures d_after { d.new ≡ link_after d.old zone true t }
{
    link(d, zone, true, t)
}

#[tactic(auto, unfolding(crate::specs::Calls::override_word))]
fn override_word(reason: u64, direction: u64) -> u64
    requires { (reason < 5) × (direction < 2) }
    ensures { result ≡ override_word reason direction }
{
    1 + 2 * reason + direction
}

// Sets the override, for a reason and a direction; one that is set is replaced.
pub fn set_override(d: &mut State, reason: u64, direction: u64, t: u64) -> Result<(), Refusal>
    ensures value { number_in result ≡ override_number d.old reason direction t }
    ensures d_after { d.new ≡ override_after d.old reason direction t }
{
    in_order(d, t)?;
    if device_rules::go_together(device_store::is_manager(d), reason, direction) {
        device_store::apply_head(d, t, override_word(reason, direction));
        return Ok(());
    }
    Err(Refusal::BadOverride)
}

// Clears the override, where one is set.
pub fn clear_override(d: &mut State, t: u64) -> Result<(), Refusal>
    ensures value { number_in result ≡ clear_number d.old t }
    ensures d_after { d.new ≡ clear_after d.old t }
{
    in_order(d, t)?;
    if device_store::overridden(d) == 0 {
        return Err(Refusal::Already);
    }
    device_store::apply_head(d, t, 0);
    Ok(())
}

// What holds at the device's own last time. The device is lent without the right to change it: nothing moves.
#[tactic(auto, unfolding(crate::specs::Calls::ask_answer))]
pub fn ask(d: &State) -> [i64; VALUES]
    ensures { result ≡ ask_answer d.now }
{
    device_holds::values_at(d, device_store::clock(d))
}

// Moves the clock to a second, and nothing else.
pub fn move_clock(d: &mut State, t: u64) -> Result<(), Refusal>
    ensures value { number_in result ≡ move_number d.old t }
    ensures d_after { d.new ≡ move_after d.old t }
{
    in_order(d, t)?;
    device_store::apply_head(d, t, device_store::overridden(d));
    Ok(())
}
