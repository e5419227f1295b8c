// The value under a key of a map.
ghost use Rattle.std.specs.Prelude.{◌≡◌};
ghost use Rattle.wire_cbor.specs.Find.{step_at, seek_at};

use crate::items::check_item;
use wire_heads::{Key, read_key};

// Where a walk over pairs stopped. There: at the value, `left` pairs behind it. Not there: at the first pair not passed, `left` counting it.
#[derive(Clone, Copy)]
pub struct Stop {
    pub there: bool, // no Option: where the key is not there, both numbers say where the walk stopped
    pub at: usize,
    pub left: u64,
}

// A look at one pair: its value where the key is the one sought, the position past it where its key is smaller, or a halt.
#[derive(Clone, Copy)]
pub enum Step {
    There(usize),
    Past(usize),
    Halt,
}

// Looks at the pair at `at`, whose value has at most `depth` levels.
fn look(s: &[u8], at: usize, key: u64, depth: u64) -> Step
    ensures { result ≡ step_at s.now depth key at }
{
    let Some(Key { key: k, next }) = read_key(s, at, true, 0) else {
        return Step::Halt;
    };
    if k == key {
        return Step::There(next);
    }
    if key < k {
        return Step::Halt;
    }
    match check_item(s, next, depth) {
        None => Step::Halt,
        Some(e) => Step::Past(e),
    }
}

// Walks from a pair, with `left` pairs left, to the key or to the first larger one; values have at most `depth` levels.
// For maps whose keys are not small, as those of a Measurement: `scan` keeps the small ones.
pub fn seek(s: &[u8], at: usize, left: u64, key: u64, depth: u64) -> Stop
    ensures { result ≡ seek_at s.now depth key left at }
{
    let mut p = at;
    for passed in 0..left {
        match look(s, p, key, depth) {
            Step::Halt => {
                return Stop {
                    there: false,
                    at: p,
                    left: left - passed,
                };
            }
            Step::There(value) => {
                return Stop {
                    there: true,
                    at: value,
                    left: left - passed - 1,
                };
            }
            Step::Past(e) => p = e,
        }
    }
    Stop {
        there: false,
        at: p,
        left: 0,
    }
}
