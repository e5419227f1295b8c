// Bytes as hex digits.
ghost use Rattle.std.specs.Prelude.{◌≡◌, ◌+◌, ◌*◌, ◌<◌, ◌≤◌, ◌/◌, ◌%◌, leb, length, set};
ghost use Rattle.wire_bytes.specs.Bytes.{put, put_whole, past_whole};
ghost use Rattle.text.specs.Text.{hex_digit, hex};

use wire_bytes::has_room;

// Whether `n` pairs of digits fit at `at` into `len`.
fn has_pairs(len: usize, at: usize, n: usize) -> bool
    ensures { result ≡ leb (at + 2 * n) len }
{
    n.checked_mul(2).is_some_and(|size| has_room(len, at, size))
}

// One digit, 0 to 9, then a to f.
#[tactic(auto, unfolding(crate::specs::Text::hex_digit))]
fn hex_digit(n: u8) -> u8
    requires { n < 16 }
    ensures { result ≡ hex_digit n }
{
    if n < 10 { b'0' + n } else { b'a' - 10 + n }
}

fn put_pair(out: &mut [u8], at: usize, b: u8)
    requires { at + 2 ≤ length out.old }
    ensures { out.new ≡ set (set out.old at (hex_digit (b / 16))) (at + 1) (hex_digit (b % 16)) }
{
    out[at] = hex_digit(b / 16);
    out[at + 1] = hex_digit(b % 16);
}

// Stores two digits for each byte.
fn put_pairs(out: &mut [u8], at: usize, bytes: &[u8])
    requires { at + 2 * length bytes.now ≤ length out.old }
    ensures { out.new ≡ put out.old at (hex bytes.now) }
{
    for (i, b) in bytes.iter().enumerate() {
        put_pair(out, at + 2 * i, *b);
    }
}

pub fn put_hex(out: &mut [u8], at: usize, bytes: &[u8]) -> usize
    ensures value { result ≡ past_whole out.old at (hex bytes.now) }
    ensures out_after { out.new ≡ put_whole out.old at (hex bytes.now) }
{
    if has_pairs(out.len(), at, bytes.len()) {
        put_pairs(out, at, bytes);
        return at + 2 * bytes.len();
    }
    at
}
