// What a call's second, a start, a join and an override may say: one function for each rule of a refusal, over plain numbers.
#![tactic(auto)]

ghost use Rattle.std.specs.Prelude.{◌≡◌};
ghost use Rattle.device_rules.specs.Rules.{late, bad_join, go_together};
ghost use Rattle.device_rules.specs.Rules.{bad_maximum, outside, bad_settings};

use device_store::{END, IDS, MOST, Settings, VALUE_END};

// The lowest rank; the highest is 1.
const RANKS: u64 = 3;

// As many phases as a current limit can name.
const MOST_PHASES: u64 = 3;

// 5: whether a call at t comes before the last accepted one, or past the end of time.
#[tactic(auto, unfolding(crate::specs::Rules::late))]
pub fn is_late(clock: u64, t: u64) -> bool
    ensures { result ≡ late clock t }
{
    t < clock || END <= t
}

// 6: an id outside 1 to 255, or a rank outside 1 to 3.
#[tactic(auto, unfolding(crate::specs::Rules::bad_join, crate::specs::Rules::outside))]
pub fn is_bad_join(zone: u64, rank: u64) -> bool
    ensures { result ≡ bad_join zone rank }
{
    is_outside(1, zone, IDS - 1) || is_outside(1, rank, RANKS)
}

// Whether an override's reason goes with its direction; else 18. Reasons 3 and 4 are for an energy manager alone.
#[tactic(auto, unfolding(crate::specs::Rules::go_together))]
pub fn go_together(manager: bool, reason: u64, direction: u64) -> bool
    ensures { result ≡ go_together manager reason direction }
{
    match reason {
        0 | 1 => direction == 0,
        2 => direction < 2,
        3 => manager && direction == 0,
        4 => manager && direction == 1,
        _ => false,
    }
}

#[tactic(auto, unfolding(crate::specs::Rules::bad_maximum))]
fn is_bad_maximum(m: u64) -> bool
    ensures { result ≡ bad_maximum m }
{
    VALUE_END <= m && m != MOST
}

#[tactic(auto, unfolding(crate::specs::Rules::outside))]
fn is_outside(low: u64, v: u64, high: u64) -> bool
    ensures { result ≡ outside low v high }
{
    v < low || high < v
}

// 16: a setting out of range, or a contractual consumption maximum below the minimum.
#[tactic(auto, unfolding(crate::specs::Rules::bad_settings))]
pub fn is_bad_settings(s: Settings) -> bool
    ensures { result ≡ bad_settings s }
{
    2 < s.directions
        || VALUE_END <= s.minimum
        || is_bad_maximum(s.maxima[0])
        || is_bad_maximum(s.maxima[1])
        || VALUE_END <= s.failsafe[0]
        || VALUE_END <= s.failsafe[1]
        || is_outside(7200, s.duration, 86400)
        || is_outside(1, s.phases, MOST_PHASES)
        || s.maxima[0] < s.minimum
}
