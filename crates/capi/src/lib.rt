// The kernel for C, the same on every board: numbers of 64 bits, and pointers to words, bytes or numbers with their counts. Each
// call answers its number alone, and an ask, which has no refusal, not even that; what else it answers goes into lent words.
// include/cekarum.h makes structs of them.
// The number in the exports' names is that of the interface: it goes up where one of them takes, leaves or means something else,
// so that a header and a library of two interfaces do not link.
// Nothing is decided here. Each function states what the call beneath it states; `capi_c` exports each under its name.
#![tactic(auto)]

mod calls; // calls.rt: the device's calls, the plan, the report
mod counter; // counter.rt: a tick counter's readings
mod frame; // frame.rt: a frame applied
mod meter; // meter.rt: what the box measures, read and written, and its flows
mod requests; // requests.rt: requests, read and written
mod responses; // responses.rt: responses, read and written
mod scraps; // scraps.rt: frames that come in scraps
mod words; // words.rt: settings and inputs as words

pub use calls::{
    cekarum_interface_2_ask, cekarum_interface_2_back, cekarum_interface_2_clear,
    cekarum_interface_2_join, cekarum_interface_2_leave, cekarum_interface_2_lost,
    cekarum_interface_2_move, cekarum_interface_2_override, cekarum_interface_2_plain_plan,
    cekarum_interface_2_plan, cekarum_interface_2_report, cekarum_interface_2_start,
};
pub use counter::cekarum_interface_2_tick;
pub use frame::cekarum_interface_2_frame;
pub use meter::{
    cekarum_interface_2_dc_flow, cekarum_interface_2_phase_flow, cekarum_interface_2_power_flow,
    cekarum_interface_2_read_measurement, cekarum_interface_2_write_measurement,
};
pub use requests::{cekarum_interface_2_read_request, cekarum_interface_2_write_request};
pub use responses::{cekarum_interface_2_read_response, cekarum_interface_2_write_response};
pub use scraps::cekarum_interface_2_receive;
pub use words::{INPUTS, SETTINGS};
