// What holds at a second: the table of links over what the zones claim, and the next second at which it can change.
#![tactic(auto)]

mod compare; // whether two rows have the same values
mod links; // which links are up, and since when none is
mod values; // the table

pub use compare::alike;
use device_store::VALUES;
pub use device_table::shown;
pub use links::since_without;
pub use values::{values_at, values_with, view_at};

// What holds at a second, and the next second at which it can change.
#[derive(Clone, Copy)]
pub struct View {
    pub values: [i64; VALUES],
    pub next: u64,
}
