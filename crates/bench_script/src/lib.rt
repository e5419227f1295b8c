// Bench scripts: a record is read, run on a device, and its answer printed.
#![tactic(auto)]

mod answers; // a number and a plan's rows as text
mod bench_device; // the device that bench scripts run on
mod calls; // the call that a record makes, and its run

pub use answers::print_answer;
pub use bench_device::bench_settings;
pub use calls::{Call, Stepped, step};
