// The Measurement feature (document 002): payloads read and written, and the direction of flow.
#![tactic(auto)]

mod flow; // flow.rt: the direction of flow

pub use flow::{Flow, dc_flow, flow_number, phase_flow, power_flow};
pub use measurement_reader::{number_in, read_measurement};
pub use measurement_table::{Place, WORDS, Words, place_at, put_place};
pub use measurement_writer::write_measurement;
pub use wire_output::Written;
