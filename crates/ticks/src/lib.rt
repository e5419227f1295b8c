// A board whose clock is a counter of milliseconds in 32 bits, which returns to zero after about 49.7 days: its readings become
// the kernel's seconds (document 02, L10).
//
// read_tick(front, tick)               0 and the seconds since the first reading; 5 for a step back, or past the last second
// read_words(words, tick)              the same over four lent words, for drivers in C; a new front is all zero
//
// A front is kept between readings and belongs to one counter. A refused reading changes nothing.
#![tactic(auto)]

mod front; // front.rt: the front, and a reading
mod words; // words.rt: the front as words

pub use front::{Front, Reading, no_front, read_tick};
pub use words::{Answer, FRONT, read_words};
