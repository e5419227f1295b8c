// Heads of RFC 8949's strict subset: a major type and an argument in its shortest form, read and written, and the keys of a map.
#![tactic(auto)]

mod keys; // keys.rt: the keys of a map
mod reading; // reading.rt: heads, read
mod sizes; // sizes.rt: how long a head is
mod writing; // writing.rt: heads, written

pub use keys::{Key, read_key};
pub use reading::{Head, read_head};
pub use sizes::head_len;
pub use writing::put_head;
