// One test tried on what a command says: of all quantities only those that its own fields are of can pass it.
ghost use Rattle.std.specs.Prelude.{◌+◌, ◌<◌, ◌≡◌, ◌&&◌, ◌||◌};
ghost use Rattle.device_store.specs.Quantities.{helds};
ghost use Rattle.command_by_quantity.specs.Says.{is_set};
ghost use Rattle.command_tests.specs.Asked.{beyond, outside, is_so, some_field_is};

use command_by_quantity::top_of;
use command_fields::{field_above, field_names, field_negative, limit_field, setpoint_field};
use device_store::{CURRENTS, LIMITS, Settings, direction_of, is_current, phase_of, supports};
use wire_messages::{Command, CurrentLimits, Field, Phases};

// Named at all, below 0, of a direction that is not supported, of a phase from the count up, above the most that it may be.
// By name, and no closure: the definitions `is_so` and `some_field_is` of specs/ are stated over these names.
#[derive(Clone, Copy)]
pub enum FieldTest {
    Named,
    Negative,
    UnsupportedDirection,
    MissingPhase,
    AboveMaximum,
}

// A quantity that is named though its direction is not supported.
fn is_beyond(has: u64, f: Field, q: usize) -> bool
    ensures { result ≡ beyond has f q }
{
    field_names(f) && !supports(has, direction_of(q) as u64)
}

// A current that is named though its phase is not there.
fn is_outside(count: u64, f: Field, q: usize) -> bool
    ensures { result ≡ outside count f q }
{
    field_names(f) && is_current(q) && count <= phase_of(q) as u64
}

fn is_so(k: FieldTest, s: Settings, f: Field, q: usize) -> bool
    ensures { result ≡ is_so k s f q }
{
    match k {
        FieldTest::Named => field_names(f),
        FieldTest::Negative => field_negative(f),
        FieldTest::UnsupportedDirection => is_beyond(s.directions, f, q),
        FieldTest::MissingPhase => is_outside(s.phases, f, q),
        FieldTest::AboveMaximum => field_above(top_of(s, q), f),
    }
}

// So of one of two fields, of quantity q and of the next.
fn of_two(k: FieldTest, s: Settings, a: Field, b: Field, q: usize) -> bool
    requires { q < helds }
    ensures { result ≡ is_so k s a q || is_so k s b (q + 1) }
{
    is_so(k, s, a, q) || is_so(k, s, b, q + 1)
}

// So of one of three phases, of quantity q and of every second behind it. A function of its own: one over any number of fields
// would take a list and their distance.
fn of_phases(k: FieldTest, s: Settings, m: Phases, q: usize) -> bool
    requires { q < helds }
    ensures { result ≡ is_so k s m.a q || (is_so k s m.b (q + 2) || is_so k s m.c (q + 4)) }
{
    is_so(k, s, m.a, q) || is_so(k, s, m.b, q + 2) || is_so(k, s, m.c, q + 4)
}

// A map of a direction that is none says nothing.
#[tactic(auto, using(crate::proofs::Quantities::map_of))]
fn of_currents(k: FieldTest, s: Settings, m: CurrentLimits) -> bool
    ensures { result ≡ some_field_is k s (Command.SetCurrentLimits m) }
{
    match m.direction {
        0 => of_phases(k, s, m.phases, CURRENTS),
        1 => of_phases(k, s, m.phases, CURRENTS + 1),
        _ => false,
    }
}

// Whether it is so of some quantity of a Set command: only the quantities that its fields are of are asked.
#[tactic(auto, using(crate::proofs::Quantities::of_fields))]
pub fn some_field_is(k: FieldTest, s: Settings, c: Command) -> bool
    ensures { result ≡ is_set c && some_field_is k s c }
{
    match c {
        Command::SetLimit(m) => of_two(k, s, limit_field(m, 0), limit_field(m, 1), 0),
        Command::SetSetpoint(m) => of_two(k, s, setpoint_field(m, 0), setpoint_field(m, 1), LIMITS),
        Command::SetCurrentLimits(m) => of_currents(k, s, m),
        _ => false, // a clear has no field
    }
}
