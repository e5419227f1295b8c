// The words of a line of text: where they are, the numbers, the bytes in hex and the lists that they say, and those of an answer.
#![tactic(auto)]

mod hex; // hex.rt: bytes in hex
mod lists; // lists.rt: attributes parted by commas
mod numbers; // numbers.rt: a decimal number
mod print; // print.rt: the parts of an answer
mod spans; // spans.rt: where the words of a line are

pub use hex::{is_none, read_hex};
pub use lists::read_list;
pub use numbers::{Number, number_in, read_number};
pub use print::{put_bad, put_bytes, put_end, put_hex_or_none, put_list, put_number, put_pairs};
pub use spans::{Bounds, is_word, place, same, span, split};
