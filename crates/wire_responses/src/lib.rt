// Responses: read for a command that the caller names, made for a request, and written behind their length.
#![tactic(auto)]

mod lengths; // the longest response, and the space that a writer takes for one
mod reading; // the prefix, the payload in one pass, the status, the result
mod replies; // the response that is made for a request
mod writing; // judged, put into a local, then written whole

pub use lengths::RESPONSE;
pub use reading::{Answer, read_response};
pub use replies::{reply_to, unserved_reply};
pub use writing::{frame_response, write_response};
