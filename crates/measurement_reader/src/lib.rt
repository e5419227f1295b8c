// A payload of Measurement, read: the one door is `read_measurement`.
#![tactic(auto)]

mod cells; // cells.rt: one cell, and where the walk goes on
mod reading; // reading.rt: the payload, with its refusals
mod walk; // walk.rt: the rows of the table beside the pairs of the map

pub use reading::read_measurement;
pub use refusals::number_in;
