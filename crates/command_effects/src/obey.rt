// What a command leaves held by its zone.
ghost use Rattle.std.specs.Prelude.{◌+◌, ◌<◌, ◌≡◌};
ghost use Rattle.device_store.specs.Sizes.{helds};
ghost use Rattle.command_effects.specs.Obeys.{field_action, done, obeyed};
ghost use Rattle.command_effects.specs.Fields.{left_by, with_two, with_phases, all_phases, helds_after};

use crate::actions::Action;
use command_by_quantity::{duration_of, top_of};
use command_fields::{aim_field, limit_field, natural_of, setpoint_field, until_of};
use device_store::{CURRENTS, HELDS, Held, LIMITS, Settings, Zone};
use wire_messages::{Command, CurrentLimits, Field, Phases};

// What is stored is never above the top.
#[tactic(auto, unfolding(crate::specs::Obeys::field_action))]
fn field_action(top: u64, f: Field) -> Action
    ensures { result ≡ field_action top f }
{
    match f {
        Field::Absent => Action::Keep,
        Field::Null => Action::Remove,
        Field::Value(v) => Action::Put(top.min(natural_of(v))),
    }
}

// A value is replaced together with its end.
#[tactic(auto, unfolding(crate::specs::Obeys::done))]
fn done(a: Action, until: u64, h: Held) -> Held
    ensures { result ≡ done a until h }
{
    match a {
        Action::Keep => h,
        Action::Remove => Held { value: 0, until: 0 },
        Action::Put(value) => Held { value, until },
    }
}

// What a field of quantity q leaves held of it.
fn left_by(s: Settings, f: Field, q: usize, until: u64, h: Held) -> Held
    ensures { result ≡ left_by s f q until h }
{
    done(field_action(top_of(s, q), f), until, h)
}

// Two fields obeyed, of quantity q and of the next.
#[tactic(auto, unfolding(crate::specs::Fields::with_two))]
fn with_two(
    s: Settings,
    a: Field,
    b: Field,
    q: usize,
    until: u64,
    old: [Held; HELDS],
) -> [Held; HELDS]
    requires { q + 1 < helds }
    ensures { result ≡ with_two s a b q until old }
{
    let mut held = old;
    held[q] = left_by(s, a, q, until, old[q]);
    held[q + 1] = left_by(s, b, q + 1, until, old[q + 1]);
    held
}

// Three phases obeyed, of quantity q and of every second behind it. A function of its own: one over any number of fields would
// take a list and their distance, and walk it.
#[tactic(auto, unfolding(crate::specs::Fields::with_phases))]
fn with_phases(s: Settings, m: Phases, q: usize, until: u64, old: [Held; HELDS]) -> [Held; HELDS]
    requires { q + 4 < helds }
    ensures { result ≡ with_phases s m q until old }
{
    let mut held = old;
    held[q] = left_by(s, m.a, q, until, old[q]);
    held[q + 2] = left_by(s, m.b, q + 2, until, old[q + 2]);
    held[q + 4] = left_by(s, m.c, q + 4, until, old[q + 4]);
    held
}

// A map of a direction that is none leaves all as it was.
#[tactic(auto, using(crate::proofs::Leaves::maps))]
fn with_map(s: Settings, m: CurrentLimits, until: u64, old: [Held; HELDS]) -> [Held; HELDS]
    ensures { result ≡ helds_after s (Command.SetCurrentLimits m) until old }
{
    match m.direction {
        0 => with_phases(s, m.phases, CURRENTS, until, old),
        1 => with_phases(s, m.phases, CURRENTS + 1, until, old),
        _ => old,
    }
}

fn all_phases(f: Field) -> Phases
    ensures { result ≡ all_phases f }
{
    Phases { a: f, b: f, c: f }
}

// A clear says the same of every phase.
#[tactic(auto, using(crate::proofs::Leaves::left_clear))]
fn without_currents(s: Settings, a: Option<u64>, until: u64, old: [Held; HELDS]) -> [Held; HELDS]
    ensures { result ≡ helds_after s (Command.ClearCurrentLimits a) until old }
{
    let consumption = all_phases(aim_field(a, 0));
    let production = all_phases(aim_field(a, 1));
    let held = with_phases(s, consumption, CURRENTS, until, old);
    with_phases(s, production, CURRENTS + 1, until, held)
}

// Only the quantities that the command has fields of are worked over.
#[tactic(auto, using(crate::proofs::Leaves::lefts))]
fn helds_after(s: Settings, c: Command, until: u64, old: [Held; HELDS]) -> [Held; HELDS]
    ensures { result ≡ helds_after s c until old }
{
    match c {
        Command::SetLimit(m) => with_two(s, limit_field(m, 0), limit_field(m, 1), 0, until, old),
        Command::ClearLimit(a) => with_two(s, aim_field(a, 0), aim_field(a, 1), 0, until, old),
        Command::SetSetpoint(m) => {
            let consumption = setpoint_field(m, 0);
            with_two(s, consumption, setpoint_field(m, 1), LIMITS, until, old)
        }
        Command::ClearSetpoint(a) => {
            with_two(s, aim_field(a, 0), aim_field(a, 1), LIMITS, until, old)
        }
        Command::SetCurrentLimits(m) => with_map(s, m, until, old),
        Command::ClearCurrentLimits(a) => without_currents(s, a, until, old),
        Command::Unserved(_) => old,
    }
}

// The zone's record once it has obeyed.
#[tactic(auto, unfolding(crate::specs::Obeys::obeyed, device_store::specs::Zones::held_of, crate::specs::Fields::helds_after))]
pub fn obeyed(s: Settings, c: Command, t: u64, zone: Zone) -> Zone
    ensures { result ≡ obeyed s c t zone }
{
    Zone {
        held: helds_after(s, c, until_of(t, duration_of(c)), zone.held),
        ..zone
    }
}
