// The device as words that the driver lends: settings, zones and what they hold, behind lenses. No other room knows the layout.
#![tactic(auto)]

mod lenses;
mod puts;
mod quantities; // quantities.rt: the quantities that a zone can set, by index
mod views; // views.rt: the slots as they stand, or with another record in one

pub use lenses::{
    all, clock, free_zone, held_at, id_at, is_joined, is_manager, overridden, precedence_at,
    settings_at, since, slot_of, slot_of_joined, up_at, zone_at,
};
pub use puts::{apply, apply_head, fresh};
pub use quantities::{
    CURRENTS, HELDS, LEADING_SETPOINTS, LIMITS, LOWEST_VALUES, PHASES, SETPOINTS, direction_of,
    is_current, is_limit, least, phase_of, supports,
};
pub use views::{ReadSlots, WithZone};

// How many zones there are, and the words of a zone, of the head and of the whole device.
pub const SLOTS: usize = 8;

// The control state and each quantity: what holds at a second.
pub const VALUES: usize = 1 + HELDS;

pub const ZONE: usize = 2 + 2 * HELDS;

// The head: clock, since when no link is up, override; then the settings.
pub const MARKS: usize = 3;

pub const SETTINGS: usize = 12;

pub const HEAD: usize = MARKS + SETTINGS;

pub const WORDS: usize = HEAD + SLOTS * ZONE;

pub type State = [u64; WORDS];

// One more than the largest id: a precedence is rank * IDS + id.
pub const IDS: u64 = 256;

// The largest word: the end of what holds until replaced, and a contractual maximum that is none.
pub const MOST: u64 = 18446744073709551615;

// The first second past the end, and the first number past the largest value.
pub const END: u64 = 1099511627776;

pub const VALUE_END: u64 = 9223372036854775808;

// What a zone set for one quantity; it holds at t while t < until.
#[derive(Clone, Copy)]
pub struct Held {
    pub value: u64,
    pub until: u64,
}

// Never set, or removed.
const NOTHING: Held = Held { value: 0, until: 0 };

// A slot's whole record. The precedence is rank * IDS + id, so that setpoints are told apart by one number; id 0 is a free slot.
#[derive(Clone, Copy)]
pub struct Zone {
    pub precedence: u64,
    pub up: bool,
    pub held: [Held; HELDS],
}

// What a device starts with. Maxima and failsafe limits go by direction; MOST is no maximum. `currents`: current limits are
// accepted, for so many phases.
#[repr(C)]
#[derive(Clone, Copy)]
pub struct Settings {
    pub directions: u64,
    pub limits: bool,
    pub setpoints: bool,
    pub minimum: u64,
    pub maxima: [u64; 2],
    pub failsafe: [u64; 2],
    pub duration: u64,
    pub manager: bool,
    pub phases: u64,
    pub currents: bool,
}

// One whole change of the device: a slot's new record (none where slot is SLOTS), since when no link is up, override, clock.
#[derive(Clone, Copy)]
pub struct Change {
    pub time: u64,
    pub slot: usize,
    pub zone: Zone,
    pub since: u64,
    pub overridden: u64,
}
