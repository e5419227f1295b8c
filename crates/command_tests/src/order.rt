// In which order a command is refused that comes from a zone: document 01's.
ghost use Rattle.std.specs.Prelude.{◌≡◌};
ghost use Rattle.refusals.specs.Answers.{number_in};
ghost use Rattle.refusals.specs.Refusals.{first_of};
ghost use Rattle.command_tests.specs.Order.{command_tests};

use crate::content::{check_content, is_unserved};
use device_rules::is_late;
use device_store::Settings;
use refusals::Refusal;
use wire_messages::Command;

// Why a command at t is refused, if it is: whether its zone is there and its link up, the settings and the override are told.
#[tactic(auto, unfolding(refusals::specs::Refusals::first_of))]
pub fn check_command(
    clock: u64,
    there: bool,
    up: bool,
    s: Settings,
    overridden: u64,
    t: u64,
    c: Command,
) -> Result<(), Refusal>
    ensures { number_in result ≡ first_of (command_tests clock there up s overridden t c) }
{
    if is_unserved(c) {
        return Err(Refusal::NotServed);
    }
    if is_late(clock, t) {
        return Err(Refusal::BadTime);
    }
    if !there {
        return Err(Refusal::NotJoined);
    }
    if !up {
        return Err(Refusal::LinkDown);
    }
    check_content(s, overridden, c)
}
