// What is asked of a command itself, whatever zone it comes from: one test for each number.
ghost use Rattle.std.specs.Prelude.{◌≡◌, not, ◌&&◌, eqb};
ghost use Rattle.refusals.specs.Answers.{number_in};
ghost use Rattle.refusals.specs.Refusals.{first_of};
ghost use Rattle.command_tests.specs.Content.{accepts, aim_unsupported, unsupported, is_unserved, sets_limits};
ghost use Rattle.command_tests.specs.Content.{invalid, below_the_minimum, content_tests, is_capped};

use crate::asks::{FieldTest, some_field_is};
use command_by_quantity::{Kind, aim_of, is_set, kind_of, says};
use command_fields::field_too_low;
use device_store::{Settings, supports};
use refusals::Refusal;
use wire_messages::Command;

fn accepts(s: Settings, k: Kind) -> bool
    ensures { result ≡ accepts s k }
{
    match k {
        Kind::Limits => s.limits,
        Kind::Setpoints => s.setpoints,
        Kind::Currents => s.currents,
        Kind::Unserved => true,
    }
}

fn aim_unsupported(has: u64, a: Option<u64>) -> bool
    ensures { result ≡ aim_unsupported has a }
{
    a.is_some_and(|d| !supports(has, d))
}

#[tactic(auto, unfolding(crate::specs::Content::unsupported))]
fn is_unsupported(s: Settings, c: Command) -> bool
    ensures { result ≡ unsupported s c }
{
    !accepts(s, kind_of(c))
        || aim_unsupported(s.directions, aim_of(c))
        || some_field_is(FieldTest::UnsupportedDirection, s, c)
}

// A number that is no command of this feature.
pub fn is_unserved(c: Command) -> bool
    ensures { result ≡ is_unserved c }
{
    matches!(kind_of(c), Kind::Unserved)
}

fn sets_limits(c: Command) -> bool
    ensures { result ≡ sets_limits c }
{
    matches!(kind_of(c), Kind::Limits | Kind::Currents) && is_set(c)
}

// An override stops every Set command of limits, of power or current, and no other command.
fn is_stopped(c: Command, overridden: u64) -> bool
    ensures { result ≡ sets_limits c && not (eqb overridden 0) }
{
    sets_limits(c) && overridden != 0
}

// A Set command that names nothing is invalid too.
#[tactic(auto, unfolding(crate::specs::Content::invalid))]
fn is_invalid(s: Settings, c: Command) -> bool
    ensures { result ≡ invalid s c }
{
    is_set(c)
        && (some_field_is(FieldTest::Negative, s, c)
            || !some_field_is(FieldTest::Named, s, c)
            || some_field_is(FieldTest::MissingPhase, s, c))
}

#[tactic(auto, unfolding(crate::specs::Content::below_the_minimum))]
fn is_below_minimum(s: Settings, c: Command) -> bool
    ensures { result ≡ below_the_minimum s c }
{
    field_too_low(s.minimum, says(c, 0))
}

// Why the command itself is refused, if it is, once its zone is joined and up.
#[tactic(auto, unfolding(refusals::specs::Refusals::first_of))]
pub fn check_content(s: Settings, overridden: u64, c: Command) -> Result<(), Refusal>
    ensures { number_in result ≡ first_of (content_tests s overridden c) }
{
    if is_unsupported(s, c) {
        return Err(Refusal::NotSupported);
    }
    if is_stopped(c, overridden) {
        return Err(Refusal::Overridden);
    }
    if is_invalid(s, c) {
        return Err(Refusal::BadValue);
    }
    if is_below_minimum(s, c) {
        return Err(Refusal::BelowMinimum);
    }
    Ok(())
}

// Some quantity's number is above its top.
#[tactic(auto, using(crate::proofs::Capped::capped))]
pub fn is_capped(s: Settings, c: Command) -> bool
    ensures { result ≡ is_capped s c }
{
    some_field_is(FieldTest::AboveMaximum, s, c)
}
