// The bits that an endpoint type requires and forbids (document 003 section 2.3), by type (document 000).
ghost use Rattle.std.specs.Prelude.{◌≡◌};
ghost use Rattle.report_tables.specs.Endpoints.{required, invalid, bits_of, mask};

use crate::features::{BATTERY, CORE, EMOB, FLEX, MAPS, PROCESS, V2X};

// Endpoint types.
pub const TYPES: usize = 11;

// What most types forbid: the bits of batteries and of vehicles.
const STORES: u16 = 1 << BATTERY | 1 << EMOB | 1 << V2X;

// The bits that a type requires, and those that it forbids.
struct Cells(u16, u16);

const TABLE: [Cells; TYPES] = [
    Cells(0, MAPS as u16 - 1), // DEVICE_ROOT
    Cells(1 << CORE, STORES | 1 << FLEX | 1 << PROCESS), // GRID_CONNECTION
    Cells(1 << CORE, STORES), // INVERTER
    Cells(1 << CORE, STORES | 1 << FLEX | 1 << PROCESS), // PV_STRING
    Cells(1 << CORE | 1 << BATTERY, 1 << EMOB | 1 << V2X), // BATTERY
    Cells(1 << CORE | 1 << EMOB, 1 << BATTERY), // EV_CHARGER
    Cells(1 << CORE, STORES), // HEAT_PUMP
    Cells(1 << CORE, STORES), // WATER_HEATER
    Cells(0, 0), // HVAC
    Cells(0, 0), // APPLIANCE
    Cells(0, 0), // SUB_METER
];

// The bits that an endpoint type requires, as a map; none past the last type. By index, here and below: an optional reference has
// another layout where pointers have 32 bits.
#[tactic(auto, unfolding(crate::specs::Endpoints::required))]
pub fn required_bits(endpoint: u64) -> u64
    ensures { result ≡ mask (bits_of required endpoint) }
{
    if endpoint < TYPES as u64 {
        u64::from(TABLE[endpoint as usize].0)
    } else {
        0
    }
}

// The bits that an endpoint type forbids, as a map; none past the last type.
#[tactic(auto, unfolding(crate::specs::Endpoints::invalid))]
pub fn invalid_bits(endpoint: u64) -> u64
    ensures { result ≡ mask (bits_of invalid endpoint) }
{
    if endpoint < TYPES as u64 {
        u64::from(TABLE[endpoint as usize].1)
    } else {
        0
    }
}
