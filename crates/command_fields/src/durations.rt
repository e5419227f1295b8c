// How long a value holds: its end, and the duration of a setpoint that was sent without one.
ghost use Rattle.std.specs.Prelude.{◌≡◌};
ghost use Rattle.command_fields.specs.Durations.{until_of, setpoint_duration};

use device_store::MOST;

// The second until which a value set at n for a duration holds.
#[tactic(auto, unfolding(crate::specs::Durations::until_of))]
pub fn until_of(n: u64, duration: u64) -> u64
    ensures { result ≡ until_of n duration }
{
    if duration == 0 {
        MOST
    } else {
        n.saturating_add(duration)
    }
}

// The seconds after which a setpoint ends whose duration was left out.
const FORGOTTEN: u64 = 3600;

// The duration of a setpoint: one that was forgotten ends, and a 0 that was sent does not.
pub fn setpoint_duration(a: Option<u64>) -> u64
    ensures { result ≡ setpoint_duration a }
{
    a.unwrap_or(FORGOTTEN)
}
