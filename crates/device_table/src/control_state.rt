// The control state beside what is shown of a row of the table of links.
ghost use Rattle.std.specs.Prelude.{◌≡◌};
ghost use Rattle.device_table.specs.States.{state_up, state_down};

use refusals::{AUTONOMOUS, CONTROLLED, LIMITED, OVERRIDE};

// The control state beside the two power limits that are shown, some zone up.
#[tactic(auto, using(crate::proofs::Naturals::is_natural), unfolding(crate::specs::States::state_up))]
pub fn state_up(overridden: u64, a: i64, b: i64) -> i64
    ensures { result ≡ state_up overridden a b }
{
    if overridden != 0 {
        return OVERRIDE;
    }
    if 0 <= a || 0 <= b {
        LIMITED
    } else {
        CONTROLLED
    }
}

// With no value, no zone up.
#[tactic(auto, unfolding(crate::specs::States::state_down))]
pub fn state_down(overridden: u64) -> i64
    ensures { result ≡ state_down overridden }
{
    if overridden == 0 {
        AUTONOMOUS
    } else {
        OVERRIDE
    }
}
