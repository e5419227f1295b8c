// Payloads of Measurement, written: words are judged, then put into a local and written whole.
#![tactic(auto)]

mod fits; // marks and ranges, judged
mod heads; // the head that a cell is written with
mod puts; // attributes, counted and put
mod writing; // a payload, written

pub use writing::write_measurement;
