// `tick new TICK` and `tick same TICK`: `new` makes a fresh front, even where the reading is then refused.
ghost use Rattle.std.specs.Prelude.{◌≡◌};
ghost use Rattle.ticks.specs.Words.{words_left};
ghost use Rattle.text.specs.Pieces.{put_all, past_all};
ghost use Rattle.console_other_lines.specs.Lines.{is_tick, tick_number, tick_in, begun, reading_pieces, answer_of, front_left};

use console_words::{Number, is_word, number_in, put_bad, put_end, span};
use ticks::{FRONT, read_words};

// Words of such a line.
const WORDS: usize = 3;

// What a counter of 32 bits counts to.
const ROUND: u64 = 4294967296;

// Whether a line is about a tick counter.
#[tactic(auto, unfolding(crate::specs::Lines::is_tick))]
pub fn is_tick(s: &[u8], ends: &[usize]) -> bool
    ensures { result ≡ is_tick s.now ends.now }
{
    is_word(s, ends, 0, b"tick")
}

// The number of the last word.
#[tactic(auto, unfolding(crate::specs::Lines::tick_number))]
fn tick_number(s: &[u8], ends: &[usize]) -> Option<Number>
    ensures { result ≡ tick_number s.now ends.now }
{
    let word = span(ends, WORDS - 1);
    number_in(s, word.from, word.to)
}

// The tick of a whole line, one of 32 bits.
#[tactic(auto, unfolding(crate::specs::Lines::tick_in, crate::specs::Lines::is_reading, crate::specs::Lines::is_new, crate::specs::Lines::is_same))]
fn tick_in(s: &[u8], ends: &[usize], count: usize) -> Option<u64>
    ensures { result ≡ tick_in s.now ends.now count }
{
    let n = tick_number(s, ends)?;
    let named = is_word(s, ends, 1, b"new") || is_word(s, ends, 1, b"same");
    if count == WORDS && named && n.value < ROUND {
        Some(n.value)
    } else {
        None
    }
}

// A fresh front, or the one that there is.
#[tactic(auto, unfolding(crate::specs::Lines::begun))]
fn begin(front: &mut [u64; FRONT], fresh: bool)
    ensures { front.new ≡ begun front.old fresh }
{
    if fresh {
        *front = [0u64; FRONT];
    }
}

// Takes a reading: its number and its seconds.
fn put_reading(front: &mut [u64; FRONT], tick: u64, out: &mut [u8], at: usize) -> usize
    ensures value { result ≡ past_all out.old at (reading_pieces front.old tick) }
    ensures out_after { out.new ≡ put_all out.old at (reading_pieces front.old tick) }
    ensures front_after { front.new ≡ words_left front.old tick }
{
    let told = read_words(front, tick);
    let p = text::put_decimal(out, at, told.number);
    let q = wire_bytes::put_byte(out, p, b' ');
    let r = text::put_signed(out, q, told.seconds);
    put_end(out, r)
}

// Answers a line about a tick counter.
pub fn tick(
    front: &mut [u64; FRONT],
    s: &[u8],
    ends: &[usize],
    count: usize,
    out: &mut [u8],
    at: usize,
) -> usize
    ensures value { result ≡ past_all out.old at (answer_of front.old s.now ends.now count) }
    ensures out_after { out.new ≡ put_all out.old at (answer_of front.old s.now ends.now count) }
    ensures front_after { front.new ≡ front_left front.old s.now ends.now count }
{
    match tick_in(s, ends, count) {
        Some(tick) => {
            begin(front, is_word(s, ends, 1, b"new"));
            put_reading(front, tick, out, at)
        }
        None => put_bad(out, at),
    }
}
