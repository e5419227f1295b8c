// The feature map (document 003 section 1) by bits, and those that an endpoint type requires and forbids (section 2.3).
ghost use Rattle.std.specs.Prelude.{◌≡◌, ◌<◌};
ghost use Rattle.report_tables.specs.Features.{bits};
ghost use Rattle.report_tables.specs.Endpoints.{types, required, invalid, bits_of};
ghost use Rattle.report.specs.Lists.{member};
ghost use Rattle.report.specs.Features.{bit};

use report_tables::{invalid_bits, required_bits};

// Whether a bit of a map is set.
#[tactic(auto, unfolding(crate::specs::Features::bit))]
pub fn has(map: u64, b: u64) -> bool
    requires { b < 64 }
    ensures { result ≡ bit map b }
{
    (map >> b) % 2 == 1
}

// Whether an endpoint type requires a bit.
pub fn requires_bit(endpoint: u64, b: u64) -> bool
    requires { (endpoint < types) × (b < bits) }
    ensures { result ≡ member b (bits_of required endpoint) }
{
    has(required_bits(endpoint), b)
}

// Whether an endpoint type forbids a bit.
pub fn forbids_bit(endpoint: u64, b: u64) -> bool
    requires { (endpoint < types) × (b < bits) }
    ensures { result ≡ member b (bits_of invalid endpoint) }
{
    has(invalid_bits(endpoint), b)
}
