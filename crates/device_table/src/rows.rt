// The rows of the table of links, each from the numbers that the passes over the zones met, and the control state beside them.
ghost use Rattle.std.specs.Prelude.{◌≡◌};
ghost use Rattle.device_store.specs.Words.{override_of, settings_of};
ghost use Rattle.device_table.specs.Rows.{values_up, values_none, SafeLow, ShowsDown};

use crate::control_state::{state_down, state_up};
use crate::leaves::{failsafe_holds, row};
use device_claims::{LeadingSetpoints, LowestValues};
use device_store::{LEADING_SETPOINTS, MOST, State, VALUES, least, overridden, settings_at, since};
use refusals::FAILSAFE;

// The first row: some zone up.
pub fn values_up(d: &State, a: LowestValues, b: LeadingSetpoints) -> [i64; VALUES]
    ensures { result ≡ values_up (settings_of d.now).directions (override_of d.now) a.low b.lead }
{
    let mut v = row(settings_at(d).directions, a.low, b.lead);
    v[0] = state_up(overridden(d), v[1], v[2]);
    v
}

// The last two rows: nothing holds.
pub fn values_none(d: &State) -> [i64; VALUES]
    ensures { result ≡ values_none (override_of d.now) }
{
    let mut v = [-1; VALUES];
    v[0] = state_down(overridden(d));
    v
}

// A limit of the second row: the failsafe limit, or the smallest of the zones' where that is smaller. MOST is none.
fn safe_low(safe: u64, low: u64) -> u64
    ensures { SafeLow safe low result }
{
    least(safe, low)
}

// Zones joined and none up: the second row while the failsafe lasts, the third behind it.
pub fn values_down(d: &State, g: LowestValues, t: u64) -> [i64; VALUES]
    ensures { ShowsDown d.now t g result }
{
    let s = settings_at(d);
    if failsafe_holds(since(d), s.duration, t) {
        let mut low = g.low;
        low[0] = safe_low(s.failsafe[0], low[0]);
        low[1] = safe_low(s.failsafe[1], low[1]);
        let mut v = row(s.directions, low, [MOST; LEADING_SETPOINTS]);
        v[0] = FAILSAFE;
        return v;
    }
    values_none(d)
}
