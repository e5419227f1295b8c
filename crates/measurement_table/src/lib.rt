// The Measurement feature (document 002): its table of attributes, and the words that hold what is measured.
#![tactic(auto)]

mod attributes; // the attributes by number, places and kind, and the range of each kind
mod words; // cells as words

pub use attributes::{ROWS, Row, range_of, row_at};
pub use words::{PLACES, Place, WORDS, Words, place_at, put_place};
