// The most that a quantity may be.
ghost use Rattle.std.specs.Prelude.{◌≡◌};
ghost use Rattle.command_by_quantity.specs.Says.{top_of};

use device_store::{MOST, Settings, direction_of, is_limit};

// The most that quantity q may be: a limit's contractual maximum, and none for the others.
pub fn top_of(s: Settings, q: usize) -> u64
    ensures { result ≡ top_of s q }
{
    if is_limit(q) {
        s.maxima[direction_of(q)]
    } else {
        MOST
    }
}
