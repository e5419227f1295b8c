// Records of a bench script: the mark, kind, zone, time, body length, body; numbers most significant byte first. One
// record is read here and nothing is run: that is the room above.
#![tactic(auto)]

mod fields; // fields.rt: the mark, and the fields in front of a body
mod kinds; // kinds.rt: the kinds, and how long a body of each may be

pub use fields::{Record, is_mark, read_record};
pub use kinds::{
    ASK, BACK, CLEAR, FRAME, FRAME_LEAST, FRAME_MOST, JOIN, KINDS, LEAVE, LOST, MOVE, OVERRIDE,
    PLAN,
};

// The mark and the fields in front of a body.
pub const HEAD: usize = 10;

// The longest record.
pub const LONGEST: usize = HEAD + FRAME_MOST;
