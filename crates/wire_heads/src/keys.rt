// Keys of a map: heads of major type 0, each above the one before.
ghost use Rattle.std.specs.Prelude.{◌≡◌};
ghost use Rattle.wire_heads.specs.Key.{key_from, key_at, least};

use crate::reading::argument_of;

// A key and the position past it.
#[derive(Clone, Copy)]
pub struct Key {
    pub key: u64,
    pub next: usize,
}

// A key and the position past it: any if it is the first, else above the last.
fn later(first: bool, last: u64, key: u64, next: usize) -> Option<Key>
    ensures { result ≡ key_from (least first last) key next }
{
    (first || last < key).then_some(Key { key, next })
}

// The key at `at`, whose major type is 0: its first byte is its additional information.
// By hand: `first` beside `last` is no Option, since a public function keeps its parameters.
pub fn read_key(s: &[u8], at: usize, first: bool, last: u64) -> Option<Key>
    ensures { result ≡ key_at s.now (least first last) at }
{
    if s.len() <= at {
        return None;
    }
    let info = s[at] as u64;
    if 32 <= info {
        return None;
    }
    let arg = argument_of(s, at + 1, info)?;
    later(first, last, arg.value, arg.next)
}
