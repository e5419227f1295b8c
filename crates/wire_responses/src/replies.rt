// The response that is made for a request.
ghost use Rattle.std.specs.Prelude.{◌≡◌};
ghost use Rattle.wire_responses.specs.WrittenResponses.{status_alone};
ghost use Rattle.refusals.specs.Refusals.{NOT_SERVED};
ghost use Rattle.wire_responses.specs.Replies.{reply_to};

use refusals::NOT_SERVED;
use wire_messages::{Outcome, Request, Response};

// The reply to a request that was read: its number and its result.
pub fn reply_to(r: Request, number: u64, outcome: Outcome) -> Response
    ensures { result ≡ reply_to r number outcome }
{
    Response {
        id: r.id,
        status: number,
        outcome,
    }
}

// The reply to one that is not served.
pub fn unserved_reply(id: u64) -> Response
    ensures { result ≡ status_alone id NOT_SERVED }
{
    Response {
        id,
        status: NOT_SERVED,
        outcome: Outcome::Nothing,
    }
}
