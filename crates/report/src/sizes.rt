// Sizes of the report, each said once; specs/Sizes has them for the definitions.
// Phases at most, and the kinds of supported directions: consumption, production, both.
pub const PHASES: u64 = 3;

pub const DIRECTIONS: u64 = 3;

// The groups that judge bits, and the one behind them, which judges attributes.
pub const BIT_GROUPS: usize = 5;

pub const ATTRIBUTE_GROUP: u64 = BIT_GROUPS as u64 + 1;

// One more than the largest attribute number.
pub const NUMBERS: usize = 82;
