// The conformance report: which of document 01's six groups of rules a device breaks, and for which bit or attribute.
#![tactic(auto)]

mod attributes;
mod bit_rules;
mod breaches;
mod features;
mod sizes;

ghost use Rattle.std.specs.Prelude.{◌≡◌, length};
ghost use Rattle.report.specs.Lists.{ascends};
ghost use Rattle.report.specs.Report.{in_range, report_of, pairs_after};

use attributes::mark_listed;
use breaches::{count, write};
use refusals::{BAD_SETTINGS, NO_SPACE, NOT_ASCENDING};
use report_tables::{MAPS, TYPES};
use sizes::{DIRECTIONS, NUMBERS, PHASES};

// What a device says of itself. Numbers are wider than their ranges, so that one out of range can be told and refused.
#[repr(C)]
#[derive(Clone, Copy)]
pub struct Inputs {
    pub endpoint: u64,
    pub features: u64,
    pub phases: u64,
    pub directions: u64,
    pub limits: bool,
    pub currents: bool,
    pub setpoints: bool,
    pub process: bool,
}

// The refusal number or 0, and how many pairs were written.
#[repr(C)]
#[derive(Clone, Copy)]
pub struct Answer {
    pub number: u64,
    pub count: u64,
}

#[tactic(auto, unfolding(crate::specs::Report::in_range))]
fn in_range(i: Inputs) -> bool
    ensures { result ≡ in_range i }
{
    i.endpoint < TYPES as u64
        && i.features < MAPS
        && 0 < i.phases
        && i.phases <= PHASES
        && i.directions < DIRECTIONS
}

// Whether each number of the list is above the one before it.
fn ascending(attributes: &[u16]) -> bool
    ensures { result ≡ ascends attributes.now }
{
    attributes.is_sorted_by(|a, b| a < b)
}

// The breaches of a device, as pairs of a group and a bit or attribute number, from the front of `pairs`.
pub fn report(inputs: Inputs, attributes: &[u16], pairs: &mut [u64]) -> Answer
    ensures value { result ≡ report_of inputs attributes.now (length pairs.old) }
    ensures pairs_after { pairs.new ≡ pairs_after inputs attributes.now pairs.old }
{
    if !in_range(inputs) {
        return Answer {
            number: BAD_SETTINGS,
            count: 0,
        };
    }
    if !ascending(attributes) {
        return Answer {
            number: NOT_ASCENDING,
            count: 0,
        };
    }
    let mut listed = [false; NUMBERS];
    mark_listed(attributes, &mut listed);
    let n = count(inputs, &listed);
    if pairs.len() < 2 * n {
        return Answer {
            number: NO_SPACE,
            count: 0,
        };
    }
    write(inputs, &listed, pairs);
    Answer {
        number: 0,
        count: n as u64,
    }
}
