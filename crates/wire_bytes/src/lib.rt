// Lent slices of bytes: whether bytes fit, bytes put where all of them fit, unsigned numbers of a width.
// Numbers stand most significant byte first.
#![tactic(auto)]

mod numbers; // numbers.rt: numbers read
mod puts; // puts.rt: bytes and numbers written
mod room; // room.rt: whether bytes fit

pub use numbers::{byte_at, get_u16, get_u32, get_u64};
pub use puts::{put_byte, put_bytes, put_u16, put_u32, put_u64};
pub use room::has_room;
