// The six commands: decided, answered from what would hold, applied.
ghost use Rattle.std.specs.Prelude.{◌≡◌};
ghost use Rattle.device_calls.specs.Commands.{decision_of, outcome_for, enacted};

use crate::{Change, Decision, SLOTS, State};
use device_holds::values_with;
use wire_messages::{Command, Outcome, SET_LIMIT, has_result};

// The number, and the record that the zone would then have.
pub fn decide(d: &State, zone: u64, t: u64, c: Command) -> Decision
    ensures { result ≡ decision_of d.now zone t c }
{
    let slot = device_store::slot_of_joined(d, zone);
    let x = device_store::zone_at(d, slot);
    let s = device_store::settings_at(d);
    let checked = command_tests::check_command(
        device_store::clock(d),
        slot < SLOTS,
        x.up,
        s,
        device_store::overridden(d),
        t,
        c,
    );
    match checked {
        Ok(()) => Decision {
            number: 0,
            slot,
            zone: command_effects::obeyed(s, c, t, x),
        },
        Err(refusal) => Decision {
            number: refusal.number(),
            slot: SLOTS,
            zone: device_store::free_zone(),
        },
    }
}

// What would be answered, before anything is stored. A clear needs no values.
pub fn outcome_of(d: &State, t: u64, c: Command, x: Decision) -> Outcome
    ensures { result ≡ outcome_for d.now t c x }
{
    let n = x.number;
    match c {
        Command::SetLimit(_) if has_result(SET_LIMIT, n) => {
            let capped = command_effects::is_capped(device_store::settings_at(d), c);
            command_effects::limit_outcome(n, capped, values_with(d, x.slot, x.zone, t))
        }
        Command::SetSetpoint(_) if n == 0 => {
            command_effects::setpoint_outcome(values_with(d, x.slot, x.zone, t))
        }
        Command::SetCurrentLimits(m) if n == 0 => {
            command_effects::current_outcome(m.direction, values_with(d, x.slot, x.zone, t))
        }
        Command::ClearLimit(_) | Command::ClearSetpoint(_) | Command::ClearCurrentLimits(_)
            if n == 0 => { Outcome::Success }
        _ => Outcome::Nothing,
    }
}

// The decision applied. A refused one stores nothing.
pub fn enact(d: &mut State, t: u64, x: Decision)
    ensures { d.new ≡ enacted d.old t x }
{
    if x.number == 0 {
        let change = Change {
            time: t,
            slot: x.slot,
            zone: x.zone,
            since: device_store::since(d),
            overridden: device_store::overridden(d),
        };
        device_store::apply(d, change);
    }
}
