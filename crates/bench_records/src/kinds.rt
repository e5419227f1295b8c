// The kinds of records, and how long a body of each may be.
ghost use Rattle.std.specs.Prelude.{◌≡◌, ◌&&◌, leb};
ghost use Rattle.bench_records.specs.Kinds.{kinds, right_length, right_body};

// By hand: a kind is the byte that a record has, and the room above turns it into a call, its enum.
pub const JOIN: u64 = 1;

pub const LEAVE: u64 = 2;

pub const LOST: u64 = 3;

pub const BACK: u64 = 4;

pub const FRAME: u64 = 5;

pub const PLAN: u64 = 6;

pub const OVERRIDE: u64 = 7;

pub const CLEAR: u64 = 8;

pub const MOVE: u64 = 9;

pub const ASK: u64 = 10;

// Kinds are 1 up to this one.
pub const KINDS: u64 = ASK;

// The prefix alone, and prefix and the longest payload.
pub const FRAME_LEAST: usize = 4;

pub const FRAME_MOST: usize = FRAME_LEAST + 2048;

// Whether a body of a kind may be so long.
#[tactic(auto, unfolding(crate::specs::Kinds::right_length))]
fn is_right_length(kind: u64, n: usize) -> bool
    ensures { result ≡ right_length kind n }
{
    // First by hand: the match would ask for it last, and bytes that look like joins would take half as long again.
    if kind == JOIN {
        return n == 1;
    }
    match kind {
        FRAME => FRAME_LEAST <= n && n <= FRAME_MOST,
        OVERRIDE => n == 2,
        _ => n == 0,
    }
}

fn is_kind(kind: u64) -> bool
    ensures { result ≡ (leb 1 kind && leb kind kinds) }
{
    1 <= kind && kind <= KINDS
}

// Whether there is such a kind, and its body may be so long.
#[tactic(auto, unfolding(crate::specs::Kinds::right_body))]
pub fn is_right_body(kind: u64, n: usize) -> bool
    ensures { result ≡ right_body kind n }
{
    is_kind(kind) && is_right_length(kind, n)
}
