// Numbers read: the bytes at a position, most significant first. A byte past the end counts as 0.
ghost use Rattle.std.specs.Prelude.{◌≡◌, ◌+◌, ◌<◌, ◌≤◌, length, get_or};
ghost use Rattle.wire_bytes.specs.Bytes.{number_at};

use crate::room::has_room;

// The byte at `at`.
pub fn byte_at(s: &[u8], at: usize) -> u64
    ensures value { result ≡ get_or s.now at 0 }
    ensures upper_bound { result < 256 }
{
    if at < s.len() { u64::from(s[at]) } else { 0 }
}

// The byte `i` places behind `at`, where the sum of both could pass the largest number.
fn byte_behind(s: &[u8], at: usize, i: usize) -> u64
    ensures value { result ≡ get_or s.now (at + i) 0 }
    ensures upper_bound { result < 256 }
{
    at.checked_add(i).map_or(0, |p| byte_at(s, p))
}

// The number that `W` bytes at `at` say, which are all there: no byte is tested.
fn whole<const W: usize>(s: &[u8], at: usize) -> u64
    requires { (W ≤ 8) × (at + W ≤ length s.now) }
    ensures { result ≡ number_at s.now at W }
{
    let mut n = 0;
    for i in 0..W {
        n = n * 256 + u64::from(s[at + i]);
    }
    n
}

// The number that `W` bytes at `at` say, byte by byte where they are not all there.
fn number<const W: usize>(s: &[u8], at: usize) -> u64
    requires { W ≤ 8 }
    ensures { result ≡ number_at s.now at W }
{
    if has_room(s.len(), at, W) {
        return whole::<W>(s, at);
    }
    let mut n = 0;
    for i in 0..W {
        n = n * 256 + byte_behind(s, at, i);
    }
    n
}

// The number that the two bytes at `at` say.
pub fn get_u16(s: &[u8], at: usize) -> u64
    ensures { result ≡ number_at s.now at 2 }
{
    number::<2>(s, at)
}

// The number that the four bytes at `at` say.
pub fn get_u32(s: &[u8], at: usize) -> u64
    ensures { result ≡ number_at s.now at 4 }
{
    number::<4>(s, at)
}

// The number that the eight bytes at `at` say.
pub fn get_u64(s: &[u8], at: usize) -> u64
    ensures { result ≡ number_at s.now at 8 }
{
    number::<8>(s, at)
}
