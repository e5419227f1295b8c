// Document 003's constant tables: the bits of a feature map, those that an endpoint type requires and forbids, and the
// EnergyControl attributes by number and condition.
#![tactic(auto)]

mod attributes;
mod endpoints;
mod features;

pub use attributes::{Condition, ROWS, Row, row_at};
pub use endpoints::{TYPES, invalid_bits, required_bits};
pub use features::{ASYMMETRIC, BATTERY, BITS, CORE, EMOB, FLEX, FORECAST, MAPS, PROCESS, V2X};
