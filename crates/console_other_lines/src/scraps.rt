// Frames that come in scraps: `scrap new ROOM BYTES` and `scrap same ROOM BYTES`. `new` makes a fresh record and a room of
// zeros; ROOM is how many bytes of the room are lent.
ghost use Rattle.std.specs.Prelude.{◌≡◌};
ghost use Rattle.console_other_lines.specs.Scraps.{is_scrap};

use console_words::{is_word, number_in, put_bad, put_end, put_hex_or_none, read_hex, span};
use receiver::{COUNTS, RECORD};

// Bytes of the longest room that is lent.
pub const ROOM: usize = 2052;

// Words of such a line.
const WORDS: usize = 4;

// Whether a line is about a scrap.
#[tactic(auto, unfolding(crate::specs::Scraps::is_scrap))]
pub fn is_scrap(s: &[u8], ends: &[usize]) -> bool
    ensures { result ≡ is_scrap s.now ends.now }
{
    is_word(s, ends, 0, b"scrap")
}

// `new` begins a stream with a fresh record and a room of zeros, `same` goes on with the one before.
fn begin(words: &mut [u64; RECORD], room: &mut [u8], fresh: bool) {
    if fresh {
        *words = [0; RECORD];
        room.fill(0);
    }
}

// The number, how many bytes were taken, and the frame given out or `-`.
fn put_received(
    out: &mut [u8],
    at: usize,
    number: u64,
    counts: [u64; COUNTS],
    room: &[u8],
) -> usize {
    let p = text::put_decimal(out, at, number);
    let q = wire_bytes::put_byte(out, p, b' ');
    let r = text::put_decimal(out, q, counts[0]);
    let t = wire_bytes::put_byte(out, r, b' ');
    let u = put_hex_or_none(out, t, room, counts[1] as usize);
    put_end(out, u)
}

// Hands a scrap to the receiver, and so many bytes of its room: no more than there are.
fn receive(
    words: &mut [u64; RECORD],
    room: &mut [u8],
    lent: u64,
    scrap: &[u8],
    out: &mut [u8],
    at: usize,
) -> usize {
    let mut counts = [0u64; COUNTS];
    let lent = room.len().min(lent as usize);
    let number = receiver::receive_words(words, &mut room[..lent], scrap, &mut counts);
    put_received(out, at, number, counts, room)
}

// Reads the bytes of the last word; a bad one changes nothing.
fn with_bytes(
    words: &mut [u64; RECORD],
    room: &mut [u8],
    fresh: bool,
    lent: u64,
    word: &[u8],
    bytes: &mut [u8],
    out: &mut [u8],
    at: usize,
) -> usize {
    let Some(n) = read_hex(word, bytes) else {
        return put_bad(out, at);
    };
    begin(words, room, fresh);
    receive(words, room, lent, &bytes[..n], out, at)
}

// Answers a line about a scrap.
pub fn scrap(
    words: &mut [u64; RECORD],
    room: &mut [u8],
    s: &[u8],
    ends: &[usize],
    count: usize,
    bytes: &mut [u8],
    out: &mut [u8],
    at: usize,
) -> usize {
    let fresh = is_word(s, ends, 1, b"new");
    if count != WORDS || !fresh && !is_word(s, ends, 1, b"same") {
        return put_bad(out, at);
    }
    let place = span(ends, 2);
    let last = span(ends, WORDS - 1);
    let (Some(lent), Some(word)) = (
        number_in(s, place.from, place.to),
        s.get(last.from..last.to),
    ) else {
        return put_bad(out, at);
    };
    if lent.negative {
        return put_bad(out, at);
    }
    with_bytes(words, room, fresh, lent.value, word, bytes, out, at)
}
