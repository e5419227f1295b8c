// Items, arrays and maps, checked: each calls the others, with a loop over the elements, so that the stack grows with nesting alone.
// They answer the position past what they checked, where it is good.
ghost use Rattle.std.specs.Prelude.{◌≡◌, cond, ◌+◌, ◌-◌, ◌≤◌, length, leb};
ghost use Rattle.wire_cbor.specs.Item.{item_at, rest_at, items_at, pairs_at, end_of, payload_of, is_some};
ghost use Rattle.wire_heads.specs.Key.{least};

use wire_heads::{Head, read_head, read_key};

// How many maps and arrays may stand within each other.
pub const DEPTH: u64 = 8;

// The position past a string of n bytes at `at`, where it fits.
fn past_string(len: usize, at: usize, n: u64) -> Option<usize>
    requires { at ≤ len }
    ensures { result ≡ cond (leb n (len - at)) (Some (at + n)) None }
{
    if n <= (len - at) as u64 {
        return Some(at + n as usize);
    }
    None
}

// The position past the item at `at`, with at most `depth` arrays and maps within each other.
#[cycle(past_array_past_item_past_pairs_past_rest)]
pub(crate) fn past_item(s: &[u8], at: usize, depth: u64) -> Option<usize>
    ensures { result ≡ end_of (item_at s.now depth at) }
{
    let head = read_head(s, at)?;
    // In this order an array of small items takes a fifth fewer instructions.
    if 2 <= head.major && head.major <= 5 {
        return past_rest(s, head, depth);
    }
    Some(head.next)
}

// The same behind the head of a string, an array or a map.
#[cycle(past_array_past_item_past_pairs_past_rest)]
pub(crate) fn past_rest(s: &[u8], head: Head, depth: u64) -> Option<usize>
    requires { (2 ≤ head.major) × (head.major ≤ 5) × (head.next ≤ length s.now) }
    ensures { result ≡ end_of (rest_at s.now depth (Some head)) }
{
    if head.major < 4 {
        return past_string(s.len(), head.next, head.arg);
    }
    if depth == 0 {
        return None;
    }
    if head.major == 4 {
        return past_array(s, head.next, head.arg, depth - 1);
    }
    past_pairs(s, head.next, head.arg, true, 0, depth - 1)
}

// The position past n items at `at`.
#[cycle(past_array_past_item_past_pairs_past_rest)]
fn past_array(s: &[u8], at: usize, n: u64, depth: u64) -> Option<usize>
    ensures { result ≡ end_of (items_at (item_at s.now depth) n at) }
{
    let mut p = at;
    for _i in 0..n {
        p = past_item(s, p, depth)?;
    }
    Some(p)
}

// The position past n pairs at `at`, their keys ascending.
#[cycle(past_array_past_item_past_pairs_past_rest)]
pub(crate) fn past_pairs(
    s: &[u8],
    at: usize,
    n: u64,
    first: bool,
    last: u64,
    depth: u64,
) -> Option<usize>
    ensures { result ≡ end_of (pairs_at s.now (item_at s.now depth) n (least first last) at) }
{
    let mut p = at;
    let mut start = first;
    let mut before = last;
    for _i in 0..n {
        let key = read_key(s, p, start, before)?;
        p = past_item(s, key.next, depth)?;
        start = false;
        before = key.key;
    }
    Some(p)
}

// The end of the item at `at`, with at most `depth` arrays and maps within each other.
pub fn check_item(s: &[u8], at: usize, depth: u64) -> Option<usize>
    ensures { result ≡ end_of (item_at s.now depth at) }
{
    past_item(s, at, depth)
}

// Whether the slice is exactly one item.
pub fn is_item(s: &[u8]) -> bool
    ensures { result ≡ is_some (payload_of s.now) }
{
    match check_item(s, 0, DEPTH) {
        Some(e) => e == s.len(),
        None => false,
    }
}
