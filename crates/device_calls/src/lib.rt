// The calls and commands that move a device: each decides first and then applies one whole change; a refusal stores nothing.
#![tactic(auto)]

pub mod calls;
pub mod commands;

pub use device_store::{
    Change, HELDS, Held, MOST, SLOTS, Settings, State, VALUE_END, VALUES, WORDS, Zone,
};

// A command's number, and the record that its zone would then have.
// Not a Result: a refused SetLimit is answered with its number and with values too, so both cases use all three.
#[derive(Clone, Copy)]
pub struct Decision {
    pub number: u64,
    pub slot: usize,
    pub zone: Zone,
}

// A command's number, and the result that its response has.
#[derive(Clone, Copy)]
pub struct Answer {
    pub number: u64,
    pub outcome: wire_messages::Outcome,
}
