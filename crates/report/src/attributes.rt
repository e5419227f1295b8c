// What each condition of the EnergyControl attributes (document 003 section 3.3) says of a device, and the flags of a list.
ghost use Rattle.std.specs.Prelude.{◌≡◌, true, false, get_or, set};
ghost use mathlib.Core.List.{foldl};
ghost use Rattle.report.specs.Attributes.{conditions};
ghost use Rattle.report.specs.Lists.{marked};

use crate::Inputs;
use crate::features::has;
use report_tables::{ASYMMETRIC, Condition, FLEX, FORECAST, PROCESS, V2X};

// Whether a device meets a condition.
#[tactic(auto, unfolding(crate::specs::Attributes::conditions))]
pub fn meets(i: Inputs, condition: Condition) -> bool
    ensures { result ≡ conditions i condition }
{
    let produces = i.directions != 0;
    match condition {
        Condition::Optional => false,
        Condition::Always => true,
        Condition::IfV2x => has(i.features, V2X),
        Condition::IfProcess => has(i.features, PROCESS),
        Condition::IfLimits => i.limits,
        Condition::IfLimitsOut => i.limits && produces,
        Condition::IfAsymmetricCurrents => has(i.features, ASYMMETRIC) && i.currents,
        Condition::IfAsymmetricBoth => has(i.features, ASYMMETRIC) && i.directions == 2,
        Condition::IfSetpoints => i.setpoints,
        Condition::IfSetpointsOut => i.setpoints && produces,
        Condition::IfFlex => has(i.features, FLEX),
        Condition::IfForecast => has(i.features, FORECAST),
        Condition::IfOut => produces,
        Condition::IfProcessState => has(i.features, PROCESS) && i.process,
    }
}

// A flag of a list, false past its end.
pub fn flag(flags: &[bool], k: usize) -> bool
    ensures { result ≡ get_or flags.now k false }
{
    k < flags.len() && flags[k]
}

// Sets a flag, where the list has it.
fn mark(flags: &mut [bool], k: usize)
    ensures { flags.new ≡ set flags.old k true }
{
    if k < flags.len() {
        flags[k] = true;
    }
}

// Sets the flags of the numbers that are listed, so that each row of the table finds its own at once.
pub fn mark_listed(attributes: &[u16], flags: &mut [bool])
    ensures { flags.new ≡ foldl marked flags.old attributes.now }
{
    for number in attributes {
        mark(flags, usize::from(*number));
    }
}
