// A damaged script as hex; the answer is the number, the output or `-`, and the runs as `offset:length` or `-`.
ghost use Rattle.std.specs.Prelude.{◌≡◌};
ghost use Rattle.console_other_lines.specs.Rescues.{is_rescue};

use console_words::{is_word, put_bad, put_end, put_hex_or_none, put_pairs, read_hex, span};
use rescue_walk::{REPORT, Rescued, SCRIPT};

// Words of such a line.
const WORDS: usize = 2;

// Whether a line is about a damaged script.
#[tactic(auto, unfolding(crate::specs::Rescues::is_rescue))]
pub fn is_rescue(s: &[u8], ends: &[usize]) -> bool
    ensures { result ≡ is_rescue s.now ends.now }
{
    is_word(s, ends, 0, b"rescue")
}

fn put_rescued(out: &mut [u8], at: usize, x: Rescued, kept: &[u8], report: &[u64]) -> usize {
    let p = text::put_decimal(out, at, x.number);
    let q = wire_bytes::put_byte(out, p, b' ');
    let r = put_hex_or_none(out, q, kept, x.length);
    let t = put_pairs(out, r, report, x.runs as u64);
    put_end(out, t)
}

fn run(input: &[u8], out: &mut [u8], at: usize) -> usize {
    let mut kept = [0u8; SCRIPT];
    let mut report = [0u64; REPORT];
    let x = rescue_walk::rescue(input, &mut kept, &mut report);
    put_rescued(out, at, x, &kept, &report)
}

fn with_bytes(word: &[u8], bytes: &mut [u8], out: &mut [u8], at: usize) -> usize {
    match read_hex(word, bytes) {
        Some(n) => run(&bytes[..n], out, at),
        None => put_bad(out, at),
    }
}

// Answers a line about a damaged script.
pub fn rescue(
    s: &[u8],
    ends: &[usize],
    count: usize,
    bytes: &mut [u8],
    out: &mut [u8],
    at: usize,
) -> usize {
    let last = span(ends, WORDS - 1);
    match s.get(last.from..last.to) {
        Some(word) if count == WORDS => with_bytes(word, bytes, out, at),
        _ => put_bad(out, at),
    }
}
