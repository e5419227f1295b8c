// The EnergyControl attributes (document 003 section 3.3): a fixed table of number and condition.
ghost use Rattle.std.specs.Prelude.{◌≡◌, get_or};
ghost use Rattle.report_tables.specs.Attributes.{no_row, rows};

use Condition::{
    Always, IfAsymmetricBoth, IfAsymmetricCurrents, IfFlex, IfForecast, IfLimits, IfLimitsOut,
    IfOut, IfProcess, IfProcessState, IfSetpoints, IfSetpointsOut, IfV2x, Optional,
};

// Rows of the table.
pub const ROWS: usize = 33;

// When a device must have an attribute (section 3.3): `Out` is where it supports production.
#[derive(Clone, Copy, PartialEq, Eq)]
pub enum Condition {
    Optional,
    Always,
    IfV2x,
    IfProcess,
    IfLimits,
    IfLimitsOut,
    IfAsymmetricCurrents,
    IfAsymmetricBoth,
    IfSetpoints,
    IfSetpointsOut,
    IfFlex,
    IfForecast,
    IfOut,
    IfProcessState,
}

// A row of the table: the attribute's number, and its condition.
#[derive(Clone, Copy)]
pub struct Row(pub u8, pub Condition);

const TABLE: [Row; ROWS] = [
    Row(1, Always), // deviceType
    Row(2, Always), // controlState
    Row(3, Optional), // optOutState
    Row(10, Always), // acceptsLimits
    Row(11, Always), // acceptsCurrentLimits
    Row(12, Always), // acceptsSetpoints
    Row(13, IfV2x), // acceptsCurrentSetpoints
    Row(14, Always), // isPausable
    Row(15, Optional), // isShiftable
    Row(16, IfProcess), // isStoppable
    Row(20, IfLimits), // effectiveConsumptionLimit
    Row(21, IfLimits), // myConsumptionLimit
    Row(22, IfLimitsOut), // effectiveProductionLimit
    Row(23, IfLimitsOut), // myProductionLimit
    Row(30, IfAsymmetricCurrents), // effectiveCurrentLimitsConsumption
    Row(31, IfAsymmetricCurrents), // myCurrentLimitsConsumption
    Row(32, IfAsymmetricBoth), // effectiveCurrentLimitsProduction
    Row(33, IfAsymmetricBoth), // myCurrentLimitsProduction
    Row(40, IfSetpoints), // effectiveConsumptionSetpoint
    Row(41, IfSetpoints), // myConsumptionSetpoint
    Row(42, IfSetpointsOut), // effectiveProductionSetpoint
    Row(43, IfSetpointsOut), // myProductionSetpoint
    Row(50, IfV2x), // effectiveCurrentSetpointsConsumption
    Row(51, IfV2x), // myCurrentSetpointsConsumption
    Row(52, IfV2x), // effectiveCurrentSetpointsProduction
    Row(53, IfV2x), // myCurrentSetpointsProduction
    Row(60, IfFlex), // flexibility
    Row(61, IfForecast), // forecast
    Row(70, Always), // failsafeConsumptionLimit
    Row(71, IfOut), // failsafeProductionLimit
    Row(72, Always), // failsafeDuration
    Row(80, IfProcess), // processState
    Row(81, IfProcessState), // optionalProcess
];

// The k-th row, so that the table is read in one place; past the last an optional attribute 0, which there is not.
// By index: an optional reference has another layout where pointers have 32 bits.
#[tactic(auto, unfolding(crate::specs::Attributes::rows))]
pub fn row_at(k: usize) -> Row
    ensures { result ≡ get_or rows k no_row }
{
    if k < ROWS { TABLE[k] } else { Row(0, Optional) }
}
