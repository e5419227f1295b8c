// The attributes of Measurement (document 002): a fixed table of number, places and kind, and the bounds of each kind.
ghost use Rattle.std.specs.Prelude.{◌≡◌, get_or};
ghost use Rattle.measurement_table.specs.Rows.{no_row, rows, range_of};

use wire_fields::Range;

// An attribute: its number, how many places it has (one number, or one for each phase), and its kind. Bytes, since a constant is laid out at each use.
#[derive(Clone, Copy)]
pub struct Row(pub u8, pub u8, pub u8);

pub const ROWS: usize = 24;

const INT64: u8 = 0;

const UINT64: u8 = 1;

const UINT32: u8 = 2;

const INT16: u8 = 3;

const FACTOR: u8 = 4;

const PERCENT: u8 = 5;

const TABLE: [Row; ROWS] = [
    Row(1, 1, INT64), // acActivePower
    Row(2, 1, INT64), // acReactivePower
    Row(3, 1, UINT64), // acApparentPower
    Row(10, 3, INT64), // acActivePowerPerPhase
    Row(11, 3, INT64), // acReactivePowerPerPhase
    Row(12, 3, INT64), // acApparentPowerPerPhase
    Row(20, 3, INT64), // acCurrentPerPhase
    Row(21, 3, UINT32), // acVoltagePerPhase
    Row(22, 3, UINT32), // acVoltagePhaseToPhasePair
    Row(23, 1, UINT32), // acFrequency
    Row(24, 1, FACTOR), // powerFactor
    Row(30, 1, UINT64), // acEnergyConsumed
    Row(31, 1, UINT64), // acEnergyProduced
    Row(40, 1, INT64), // dcPower
    Row(41, 1, INT64), // dcCurrent
    Row(42, 1, UINT32), // dcVoltage
    Row(43, 1, UINT64), // dcEnergyIn
    Row(44, 1, UINT64), // dcEnergyOut
    Row(50, 1, PERCENT), // stateOfCharge
    Row(51, 1, PERCENT), // stateOfHealth
    Row(52, 1, UINT64), // stateOfEnergy
    Row(53, 1, UINT64), // useableCapacity
    Row(54, 1, UINT32), // cycleCount
    Row(60, 1, INT16), // temperature
];

// The row k; past the end a row of no places. By index, here and below: an optional reference has another layout where pointers
// have 32 bits.
#[tactic(auto, unfolding(crate::specs::Rows::rows))]
pub fn row_at(k: usize) -> Row
    ensures { result ≡ get_or rows k no_row }
{
    if k < ROWS { TABLE[k] } else { Row(0, 0, 0) }
}

const KINDS: usize = 6;

// By kind, in the order of their numbers above.
const RANGES: [Range; KINDS] = [
    Range {
        below: 9223372036854775808,
        high: 9223372036854775807,
    },
    Range {
        below: 0,
        high: 18446744073709551615,
    },
    Range {
        below: 0,
        high: 4294967295,
    },
    Range {
        below: 32768,
        high: 32767,
    },
    Range {
        below: 1000,
        high: 1000,
    },
    Range {
        below: 0,
        high: 100,
    },
];

// The range of a kind; that of no kind holds 0 alone.
#[tactic(auto, unfolding(crate::specs::Rows::range_of, crate::specs::Rows::ranges))]
pub fn range_of(kind: usize) -> Range
    ensures { result ≡ range_of kind }
{
    if kind < KINDS {
        RANGES[kind]
    } else {
        Range { below: 0, high: 0 }
    }
}
