// Console lines beside the kernel: one module for each kind of line.
#![tactic(auto)]

mod prints; // `tick new TICK`, `tick same TICK`: a tick counter
mod readings; // `meas BYTES`: a payload of Measurement read, written again, and its flows
mod rescues; // `rescue BYTES`: a damaged bench script
mod scraps; // `scrap new ROOM BYTES`, `scrap same ROOM BYTES`: frames that come in scraps

pub use prints::{is_tick, tick};
pub use readings::meas;
pub use rescues::{is_rescue, rescue};
pub use scraps::{ROOM, is_scrap, scrap};
