// How long a message can be.

// The longest frame of a request that is written: a theorem of wire_laws.
pub const REQUEST: usize = 62;

// More bytes than any payload that is written has, each of its fields taken at its widest.
pub(crate) const ROOM: usize = 240;
