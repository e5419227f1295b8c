// The front by value, and what a reading makes of it.
ghost use Rattle.std.specs.Prelude.{◌≡◌, ◌≤◌};
ghost use Rattle.ticks.specs.Ticks.{END, no_front, refused, accepted, reading_of};

use refusals::BAD_TIME;

// The last second that the kernel's clock can show.
const END: u64 = 1099511627775;

// A step of so many milliseconds, or more, is one back.
const BACK: u32 = 2147483648;

// Whether a reading was accepted yet; the last one that was, the seconds it gave and the milliseconds left over. A flag beside
// values and no Option: C may lend any four words, and the theorems on ticks in kernel_laws and demands name these fields.
#[derive(Clone, Copy)]
pub struct Front {
    pub begun: bool,
    pub last: u32,
    pub seconds: u64,
    pub remainder: u32,
}

// 0 or the refusal number; the seconds, -1 beside a refusal; the front afterwards.
#[derive(Clone, Copy)]
pub struct Reading {
    pub number: u64,
    pub seconds: i64,
    pub front: Front,
}

// A new front, before its first reading.
#[tactic(auto, unfolding(crate::specs::Ticks::no_front))]
pub fn no_front() -> Front
    ensures { result ≡ no_front }
{
    Front {
        begun: false,
        last: 0,
        seconds: 0,
        remainder: 0,
    }
}

#[tactic(auto, unfolding(crate::specs::Ticks::refused))]
fn refuse(f: Front) -> Reading
    ensures { result ≡ refused f }
{
    Reading {
        number: BAD_TIME,
        seconds: -1,
        front: f,
    }
}

// The end is not passed.
#[tactic(auto, unfolding(crate::specs::Ticks::accepted))]
fn accept(tick: u32, seconds: u64, remainder: u32) -> Reading
    requires { seconds ≤ END }
    ensures { result ≡ accepted tick seconds remainder }
{
    Reading {
        number: 0,
        seconds: seconds as i64,
        front: Front {
            begun: true,
            last: tick,
            seconds,
            remainder,
        },
    }
}

// Takes a reading, on every content of the front. The difference of two readings wraps, as the counter does.
#[tactic(auto, unfolding(crate::specs::Ticks::reading_of, crate::specs::Ticks::moved, crate::specs::Ticks::step_of))]
pub fn read_tick(f: Front, tick: u32) -> Reading
    ensures { result ≡ reading_of f tick }
{
    if !f.begun {
        return accept(tick, 0, 0);
    }
    let step = tick.wrapping_sub(f.last);
    if step >= BACK || f.seconds > END {
        return refuse(f);
    }
    let passed = u64::from(f.remainder) + u64::from(step);
    let seconds = f.seconds + passed / 1000;
    if seconds > END {
        return refuse(f);
    }
    accept(tick, seconds, (passed % 1000) as u32)
}
