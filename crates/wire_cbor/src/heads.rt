// One pass over a payload, which checks it and keeps the heads under its small keys and under those of the maps along a path.
ghost use Rattle.std.specs.Prelude.{◌≡◌, ◌+◌, ◌%◌, ◌<◌, cond, false, ltb, eqb};
ghost use Rattle.std.proofs.Math.Option.{some};
ghost use Rattle.wire_cbor.specs.Item.{item_at, pairs_at, end_of, levels, payload_of, is_some};
ghost use Rattle.wire_cbor.specs.Scan.{KEYS, LEVELS, KEY_HEADS, STEP, head, key_head_at, pairs_in, key_heads_of, words_of};
ghost use Rattle.wire_cbor.specs.Pass.{Left, note_at, noted, note_from, blank};

use crate::items::{DEPTH, past_pairs, past_rest};
use wire_heads::{read_head, read_key};

// The small keys are 0 to 5.
pub const KEYS: usize = 6;

// How many maps within each other are looked into: the payload's, and two below it.
pub const LEVELS: usize = 3;

// Nothing is looked into below this level.
const DEEPEST: usize = LEVELS - 1;

// The small keys of each.
pub const KEY_HEADS: usize = KEYS * LEVELS;

// Two words each.
pub const WORDS: usize = 2 * KEY_HEADS;

// A path has a digit to this base for each level.
pub const STEP: u64 = 16;

// What is seen under a key: the head of its value; major 8 where nothing is there.
#[derive(Clone, Copy)]
pub struct KeyHead {
    pub major: u64,
    pub arg: u64,
}

// Heads as words, the major types and then the arguments: a reference to an array of structs has no proof.
pub type KeyHeads = [u64; WORDS];

// What is seen under a small key of the map at a level; nothing past the last.
pub fn key_head_of(heads: &KeyHeads, level: usize, key: usize) -> KeyHead
    ensures { result ≡ key_head_at heads.now level key }
{
    if level < LEVELS {
        if key < KEYS {
            let k = level * KEYS + key;
            return KeyHead {
                major: heads[k],
                arg: heads[KEY_HEADS + k],
            };
        }
    }
    KeyHead { major: 8, arg: 8 }
}

// Forgets all.
fn clear(heads: &mut KeyHeads)
    ensures { heads.new ≡ blank }
{
    *heads = [8u64; WORDS];
}

// Keeps the head of a value.
fn note(heads: &mut KeyHeads, k: usize, major: u64, arg: u64)
    requires { k < KEY_HEADS }
    ensures { heads.new ≡ note_at heads.old k (head major arg) }
{
    heads[k] = major;
    heads[KEY_HEADS + k] = arg;
}

// Whether the head of a key's value opens the next map along a path.
fn opens(key: u64, path: u64, level: usize, major: u64) -> bool
    ensures { result ≡ cond (eqb key (path % STEP)) (cond (ltb (level + 1) LEVELS) (eqb major 5) false) false }
{
    key == path % STEP && level < DEEPEST && major == 5
}

// The position past the value at `at` of a small key, as `past_item` says it; the heads of the map that a path leads to, too.
#[cycle(scan_map_scan_value)]
fn scan_value(
    s: &[u8],
    at: usize,
    depth: u64,
    key: u64,
    path: u64,
    level: usize,
    heads: &mut KeyHeads,
) -> Option<usize>
    requires { (key < KEYS) × (level < LEVELS) }
    ensures value { result ≡ end_of (item_at s.now depth at) }
    ensures left { Left (item_at s.now depth at) (note_from path level heads.old key) heads.new }
{
    let head = read_head(s, at)?;
    note(heads, level * KEYS + key as usize, head.major, head.arg);
    if opens(key, path, level, head.major) {
        if depth == 0 {
            return None;
        }
        return scan_map(
            s,
            head.next,
            head.arg,
            depth - 1,
            path / STEP,
            level + 1,
            heads,
        );
    }
    if head.major < 2 {
        return Some(head.next);
    }
    if head.major == 7 {
        return Some(head.next);
    }
    past_rest(s, head, depth)
}

// The position past n pairs at `at`, as `past_pairs` says it; all keys behind one that is not small are larger still.
#[cycle(scan_map_scan_value)]
fn scan_map(
    s: &[u8],
    at: usize,
    n: u64,
    depth: u64,
    path: u64,
    level: usize,
    heads: &mut KeyHeads,
) -> Option<usize>
    requires { level < LEVELS }
    ensures value { result ≡ end_of (pairs_at s.now (item_at s.now depth) n 0 at) }
    ensures left { Left (pairs_at s.now (item_at s.now depth) n 0 at) (noted (note_from path level) heads.old) heads.new }
{
    let mut p = at;
    let mut first = true;
    let mut last: u64 = 0;
    for passed in 0..n {
        let key = read_key(s, p, first, last)?;
        if KEYS as u64 <= key.key {
            return past_pairs(s, p, n - passed, first, last, depth);
        }
        p = scan_value(s, key.next, depth, key.key, path, level, heads)?;
        first = false;
        last = key.key;
    }
    Some(p)
}

// The position past the item that starts the slice; heads of before are forgotten behind its head, as a bad one is refused soonest.
fn scan_root(s: &[u8], path: u64, heads: &mut KeyHeads) -> Option<usize>
    ensures value { result ≡ end_of (item_at s.now levels 0) }
    ensures left { Left (item_at s.now levels 0) (λ i. noted (note_from path 0) blank (pairs_in (some i))) heads.new }
{
    let head = read_head(s, 0)?;
    clear(heads);
    if head.major == 5 {
        return scan_map(s, head.next, head.arg, DEPTH - 1, path, 0, heads);
    }
    if head.major < 2 {
        return Some(head.next);
    }
    if head.major == 7 {
        return Some(head.next);
    }
    past_rest(s, head, DEPTH)
}

// Whether the slice is exactly one item; the heads of its small keys, and of those of the maps along a path of small keys.
pub fn scan(s: &[u8], path: u64, heads: &mut KeyHeads) -> bool
    ensures value { result ≡ is_some (payload_of s.now) }
    ensures heads_after { heads.new ≡ words_of (key_heads_of path (payload_of s.now)) }
{
    if let Some(e) = scan_root(s, path, heads) {
        if e == s.len() {
            return true;
        }
    }
    clear(heads);
    false
}
