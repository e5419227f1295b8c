// Console lines about the kernel: one module for each kind of line.
#![tactic(auto)]

mod calls; // `frame`, `request`, `response`: lines whose last word is bytes
mod prints; // `rows RECORDS`: the plain planner's rows at the device's own second
mod reports; // `conf`: the conformance report
mod starts; // `start`: the settings that its numbers say

pub use calls::with_bytes;
pub use prints::rows;
pub use reports::conf;
pub use starts::settings_of;
