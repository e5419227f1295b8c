// The statuses of a response.
ghost use Rattle.std.specs.Prelude.{◌≡◌};
ghost use Rattle.wire_messages.specs.Statuses.{is_status, stands};

use crate::SET_LIMIT;
use refusals::{BAD_TIME, BELOW_MINIMUM, NOT_JOINED, NOT_SERVED, NOT_SUPPORTED};

// Whether a response may carry it: 0, or a number that document 01's table gives as a status.
#[tactic(auto, unfolding(crate::specs::Statuses::is_status))]
pub fn is_status(n: u64) -> bool
    ensures { result ≡ is_status n }
{
    matches!(n, 0 | NOT_SERVED | BAD_TIME | NOT_JOINED..=BELOW_MINIMUM)
}

// Whether a command's result stands at a status.
#[tactic(auto, unfolding(crate::specs::Statuses::stands))]
pub fn has_result(command: u64, status: u64) -> bool
    ensures { result ≡ stands command status }
{
    status == 0 || command == SET_LIMIT && (NOT_SUPPORTED..=BELOW_MINIMUM).contains(&status)
}
