// What a command leaves held by its zone.

// What a command does to one quantity of its zone.
#[derive(Clone, Copy)]
pub enum Action {
    Keep,
    Remove,
    Put(u64),
}
