// The quantities that a zone can set, by index: the power limits of consumption and production, their setpoints, then the
// current limits phase by phase, consumption first.
ghost use Rattle.std.specs.Prelude.{◌≡◌};
ghost use Rattle.device_store.specs.Quantities.{is_limit, is_current, direction_of, phase_of, supports};
ghost use Rattle.device_store.specs.Smaller.{lesser};

// Power limits, setpoints, phases; and how many quantities that makes.
pub const LIMITS: usize = 2;

pub const SETPOINTS: usize = 2;

pub const PHASES: usize = 3;

pub const HELDS: usize = LIMITS + SETPOINTS + 2 * PHASES;

// Where the current limits begin.
pub const CURRENTS: usize = LIMITS + SETPOINTS;

// How many quantities go by the smallest value (power and current limits), and how many by the precedence (the setpoints).
pub const LOWEST_VALUES: usize = HELDS - SETPOINTS;

pub const LEADING_SETPOINTS: usize = SETPOINTS;

// A power limit.
pub fn is_limit(q: usize) -> bool
    ensures { result ≡ is_limit q }
{
    q < LIMITS
}

// A current limit.
pub fn is_current(q: usize) -> bool
    ensures { result ≡ is_current q }
{
    CURRENTS <= q
}

// Consumption 0, production 1.
pub fn direction_of(q: usize) -> usize
    ensures { result ≡ direction_of q }
{
    q % 2
}

// The phase of a current limit: A 0, B 1, C 2. Of the others 0.
pub fn phase_of(q: usize) -> usize
    ensures { result ≡ phase_of q }
{
    q.saturating_sub(CURRENTS) / 2
}

// Of the supported directions, 2 is both.
#[tactic(auto, unfolding(crate::specs::Quantities::supports))]
pub fn supports(has: u64, d: u64) -> bool
    ensures { result ≡ supports has d }
{
    d < 2 && (has == 2 || has == d)
}

// The smaller of two numbers. In this order the walk of a plan takes a sixth fewer instructions.
#[tactic(auto, using(crate::proofs::Smaller::minimum))]
pub fn least(a: u64, b: u64) -> u64
    ensures { result ≡ lesser a b }
{
    b.min(a)
}
