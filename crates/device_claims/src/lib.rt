// What the zones claim at a second: the passes over them, one for the smallest values and one for the first precedences.
#![tactic(auto)]

mod passes; // passes.rt: the passes

pub use passes::{
    LeadingSetpoints, LowestValues, leading_setpoints_at, leading_setpoints_with, lowest_values_at,
    lowest_values_with,
};
