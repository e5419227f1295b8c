// Requests: read from a frame in document 01's order, and written behind their length.
#![tactic(auto)]

mod lengths; // the longest request, and the space that a writer takes for one
mod reading; // the prefix, the payload in one pass, the envelope, the parameters of each command
mod writing; // judged, put into a local, then written whole

pub use lengths::REQUEST;
pub use reading::{Reading, read_payload, read_request};
pub use writing::write_request;
