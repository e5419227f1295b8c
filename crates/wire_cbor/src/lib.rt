// RFC 8949's strict subset: items checked, a key of a map sought, a payload read in one pass.
#![tactic(auto)]

mod heads; // one pass that checks a payload and keeps the heads found under its small keys
mod items; // items, arrays and maps, checked
mod pairs; // the value under a key of a map

pub use heads::{KEYS, KeyHead, KeyHeads, LEVELS, STEP, WORDS, key_head_of, scan};
pub use items::{DEPTH, check_item, is_item};
pub use pairs::{Stop, seek};
