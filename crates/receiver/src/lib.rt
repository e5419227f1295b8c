// A receiver of frames that come in scraps, as a socket hands them over: half a prefix, two frames and a bit, nothing.
//
// A call takes bytes of a scrap up to the end of one frame, keeps them in the room that the driver lends, and says how
// many it took. A frame that is whole stands at the front of the room until the next call. The driver calls again with
// what was not taken. The record of counts is lent beside the room; a new connection begins with one that is all zero.
//
// receive(r, room, scrap)                15 for a room under 2,052 bytes; 1 for a bad length, and ever after
// receive_words(words, room, scrap, ..)  the same over three lent words, for drivers in C
// step(r, room, scrap)                   the same with the record by value
#![tactic(auto)]

mod calls; // calls.rt: a scrap taken
mod ends; // ends.rt: where the frame in hand ends
mod record; // record.rt: the counts, and what they become
mod words; // words.rt: the record as words

pub use calls::{receive, step};
pub use record::{Answer, Decision, Record};
pub use words::{COUNTS, RECORD, receive_words};
