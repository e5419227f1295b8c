// Bytes and numbers written where all of them fit. Each writer says the position past what it wrote; where there is no
// room it writes nothing, and says the position that it was given.
ghost use Rattle.std.specs.Prelude.{◌≡◌, [], ◌∷◌, ◌≤◌, take};
ghost use Rattle.wire_bytes.specs.Bytes.{bytes_of, put_whole, past_whole};

use crate::room::has_room;

// Writes one byte.
#[tactic(auto, unfolding(crate::specs::Bytes::put, crate::specs::Bytes::put_whole, crate::specs::Bytes::past_whole))]
pub fn put_byte(out: &mut [u8], at: usize, b: u8) -> usize
    ensures value { result ≡ past_whole out.old at (b ∷ []) }
    ensures out_after { out.new ≡ put_whole out.old at (b ∷ []) }
{
    if !has_room(out.len(), at, 1) {
        return at;
    }
    out[at] = b;
    at + 1
}

// Writes the low `W` bytes of `v`, the last one first.
fn put_number<const W: usize>(out: &mut [u8], at: usize, v: u64) -> usize
    ensures value { result ≡ past_whole out.old at (bytes_of W v) }
    ensures out_after { out.new ≡ put_whole out.old at (bytes_of W v) }
{
    if !has_room(out.len(), at, W) {
        return at;
    }
    let mut rest = v;
    for i in (0..W).rev() {
        out[at + i] = (rest % 256) as u8;
        rest /= 256;
    }
    at + W
}

// Writes the low two bytes of `v`.
pub fn put_u16(out: &mut [u8], at: usize, v: u64) -> usize
    ensures value { result ≡ past_whole out.old at (bytes_of 2 v) }
    ensures out_after { out.new ≡ put_whole out.old at (bytes_of 2 v) }
{
    put_number::<2>(out, at, v)
}

// Writes the low four bytes of `v`.
pub fn put_u32(out: &mut [u8], at: usize, v: u64) -> usize
    ensures value { result ≡ past_whole out.old at (bytes_of 4 v) }
    ensures out_after { out.new ≡ put_whole out.old at (bytes_of 4 v) }
{
    put_number::<4>(out, at, v)
}

// Writes the eight bytes of `v`.
pub fn put_u64(out: &mut [u8], at: usize, v: u64) -> usize
    ensures value { result ≡ past_whole out.old at (bytes_of 8 v) }
    ensures out_after { out.new ≡ put_whole out.old at (bytes_of 8 v) }
{
    put_number::<8>(out, at, v)
}

// Writes the first `n` bytes of `from`, or all of it where it is shorter.
pub fn put_bytes(out: &mut [u8], at: usize, from: &[u8], n: usize) -> usize
    ensures value { result ≡ past_whole out.old at (take n from.now) }
    ensures out_after { out.new ≡ put_whole out.old at (take n from.now) }
{
    let count = n.min(from.len());
    if !has_room(out.len(), at, count) {
        return at;
    }
    // By index: `copy_from_slice` moves bytes by `memmove`, which the archive of a board does without.
    for i in 0..count {
        out[at + i] = from[i];
    }
    at + count
}
