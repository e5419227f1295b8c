// A field of a checked map, read by what is seen of it and written behind what is written.
#![tactic(auto)]

mod phases; // phases.rt: maps of phases, read and written
mod puts; // puts.rt: fields, written
mod ranges; // ranges.rt: numbers of a range
mod readers; // readers.rt: fields, read
mod truths; // truths.rt: truths joined
mod values; // values.rt: which number the head says that was seen under a key

pub use phases::{count_phases, is_phases, put_phases, read_currents, read_phases};
pub use puts::{
    amount_key_head, count_amount, count_value, field_key_head, put_amount, put_key_head, put_map,
    put_truth, put_uint, put_value,
};
pub use ranges::{INT64, Range, is_in, is_number, up_to};
pub use readers::{
    is_map, is_success, is_truth, is_uint, read_amount, read_truth, read_uint, read_value,
};
pub use truths::all3;
pub use values::amount_of;

// The major types of a field's value, and what is seen where no value is.
const UINT: u64 = 0;

const NINT: u64 = 1;

const MAP: u64 = 5;

const SIMPLE: u64 = 7;

const NOTHING: u64 = 8;

// The simple values.
const FALSE: u64 = 20;

const TRUE: u64 = 21;

const NULL: u64 = 22;

// The largest number of 32 bits, and the largest limit or setpoint.
pub const MOST32: u64 = 4294967295;

pub const MOST_VALUE: u64 = 9223372036854775807;
