// The result that stands in the response to a command.
ghost use Rattle.std.specs.Prelude.{◌<◌, ◌≡◌};
ghost use Rattle.device_store.specs.Quantities.{phases};
ghost use Rattle.command_effects.specs.Outcomes.{limit_outcome, setpoint_outcome, current_in, current_outcome};

use command_fields::{natural_of, reason_of, stated};
use device_store::{CURRENTS, VALUES};
use wire_messages::{CurrentResult, LimitResult, Outcome, SetpointResult};

// SetLimit is answered with the state and the limits that hold.
pub fn limit_outcome(n: u64, capped: bool, values: [i64; VALUES]) -> Outcome
    ensures { result ≡ limit_outcome n capped values }
{
    Outcome::Limit(LimitResult {
        applied: n == 0,
        state: natural_of(values[0]),
        consumption: stated(values[1]),
        production: stated(values[2]),
        reason: reason_of(n, capped),
    })
}

// SetSetpoint is answered with the setpoints that hold.
pub fn setpoint_outcome(values: [i64; VALUES]) -> Outcome
    ensures { result ≡ setpoint_outcome values }
{
    Outcome::Setpoint(SetpointResult {
        consumption: stated(values[3]),
        production: stated(values[4]),
    })
}

// The current of a phase in a direction, consumption first.
fn current_in(values: [i64; VALUES], p: usize, d: u64) -> Option<u64>
    requires { p < phases }
    ensures { result ≡ current_in values p d }
{
    let first = if d == 0 { 1 } else { 2 };
    stated(values[first + CURRENTS + 2 * p])
}

// SetCurrentLimits is answered with the currents of its direction that hold.
pub fn current_outcome(d: u64, values: [i64; VALUES]) -> Outcome
    ensures { result ≡ current_outcome d values }
{
    Outcome::Current(CurrentResult {
        a: current_in(values, 0, d),
        b: current_in(values, 1, d),
        c: current_in(values, 2, d),
    })
}
