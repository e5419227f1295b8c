// Numbers and bytes as text, written into a lent slice where they fit wholly. Each writer says the position past
// what it wrote; where there is no room it writes nothing, and says the position that it was given.
#![tactic(auto)]

mod numbers; // numbers.rt: decimal and signed decimal
mod pairs; // pairs.rt: bytes as hex digits

pub use numbers::{DIGITS, put_decimal, put_signed};
pub use pairs::put_hex;
