// Groups 1 to 5: whether a rule is broken for one bit of the feature map.
ghost use Rattle.std.specs.Prelude.{◌≡◌, false, ◌<◌, get_or};
ghost use Rattle.report_tables.specs.Endpoints.{types};
ghost use Rattle.report_tables.specs.Features.{bits};
ghost use Rattle.report.specs.Sizes.{bit_groups};
ghost use Rattle.report.specs.Rules.{need, lacks_need, clashes, lacks_supply, lacks_required, has_invalid, bit_rules};

use crate::Inputs;
use crate::features::{forbids_bit, has, requires_bit};
use report_tables::{ASYMMETRIC, BATTERY, CORE, EMOB, V2X};

// Section 2.1: the bit that a bit needs. CORE needs nothing, which is to need itself.
fn need(b: u64) -> u64
    ensures { result ≡ need b }
{
    if b == V2X { EMOB } else { CORE }
}

#[tactic(auto, unfolding(crate::specs::Rules::lacks_need))]
fn lacks_need(i: Inputs, b: u64) -> bool
    requires { b < bits }
    ensures { result ≡ lacks_need i b }
{
    has(i.features, b) && !has(i.features, need(b))
}

#[tactic(auto, unfolding(crate::specs::Rules::clashes))]
fn clashes(i: Inputs, b: u64) -> bool
    ensures { result ≡ clashes i b }
{
    (b == BATTERY) && has(i.features, BATTERY) && has(i.features, EMOB)
}

#[tactic(auto, unfolding(crate::specs::Rules::lacks_supply))]
fn lacks_supply(i: Inputs, b: u64) -> bool
    ensures { result ≡ lacks_supply i b }
{
    let unbalanced = (b == ASYMMETRIC) && has(i.features, ASYMMETRIC) && (i.phases == 1);
    let one_way = (b == V2X) && has(i.features, V2X) && (i.directions != 2);
    unbalanced || one_way
}

#[tactic(auto, unfolding(crate::specs::Rules::lacks_required))]
fn lacks_required(i: Inputs, b: u64) -> bool
    requires { (i.endpoint < types) × (b < bits) }
    ensures { result ≡ lacks_required i b }
{
    requires_bit(i.endpoint, b) && !has(i.features, b)
}

#[tactic(auto, unfolding(crate::specs::Rules::has_invalid))]
fn has_invalid(i: Inputs, b: u64) -> bool
    requires { (i.endpoint < types) × (b < bits) }
    ensures { result ≡ has_invalid i b }
{
    forbids_bit(i.endpoint, b) && has(i.features, b)
}

// Whether the rule of one of the groups 1 to 5 is broken for a bit.
#[tactic(auto, unfolding(crate::specs::Rules::bit_rules))]
pub fn broken_bit(i: Inputs, group: usize, b: u64) -> bool
    requires { (i.endpoint < types) × (group < bit_groups) × (b < bits) }
    ensures { result ≡ get_or (bit_rules i b) group false }
{
    match group {
        0 => lacks_need(i, b),
        1 => clashes(i, b),
        2 => lacks_supply(i, b),
        3 => lacks_required(i, b),
        _ => has_invalid(i, b),
    }
}
