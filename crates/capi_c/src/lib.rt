// The kernel for C as a static library: the exports, which a linker finds under these names. Each calls the function of its name in
// `capi` and states what that states; nothing else is done here.
#![tactic(auto)]

mod calls; // calls.rt: the device's calls, the plan, the report
mod counter; // counter.rt: a tick counter's readings
mod frame; // frame.rt: a frame applied
mod meter; // meter.rt: what the box measures, read and written, and its flows
mod requests; // requests.rt: requests, read and written
mod responses; // responses.rt: responses, read and written
mod scraps; // scraps.rt: frames that come in scraps
