// How long a message can be.

// The longest frame of a response that is written: a theorem of wire_laws.
pub const RESPONSE: usize = 49;

// More bytes than any payload that is written has, each of its fields taken at its widest.
pub(crate) const ROOM: usize = 160;
