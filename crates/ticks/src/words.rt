// The front as lent words, for drivers in C on every board.
ghost use Rattle.std.specs.Prelude.{◌≡◌};
ghost use Rattle.std.proofs.lemmas.List.Edits.{sets};
ghost use Rattle.ticks.specs.Words.{front_in, front_words, kept, answer, reading_in, words_left};

use crate::front::{Front, Reading, read_tick};

// What a reading answers: 0 or the refusal number; the seconds, -1 beside a refusal. Two numbers, as C gets them.
#[derive(Clone, Copy)]
pub struct Answer {
    pub number: u64,
    pub seconds: i64,
}

// How many words a front has: begun (any but 0), the last reading, seconds, remainder.
pub const FRONT: usize = 4;

// What a counter of 32 bits counts to.
const ROUND: u64 = 4294967296;

// Of a reading and of a remainder the low 32 bits count.
#[tactic(auto, unfolding(crate::specs::Words::front_in))]
fn front_in(words: &[u64; FRONT]) -> Front
    ensures { result ≡ front_in words.now }
{
    Front {
        begun: words[0] != 0,
        last: (words[1] % ROUND) as u32,
        seconds: words[2],
        remainder: (words[3] % ROUND) as u32,
    }
}

// Stores a front that has begun.
#[tactic(auto, unfolding(crate::specs::Words::front_words))]
fn put_front(words: &mut [u64; FRONT], f: Front)
    ensures { words.new ≡ sets words.old 0 (front_words f) }
{
    *words = [1, u64::from(f.last), f.seconds, u64::from(f.remainder)];
}

// Stores the front of an accepted reading.
#[tactic(auto, unfolding(crate::specs::Words::kept))]
fn keep_front(words: &mut [u64; FRONT], r: Reading)
    ensures { words.new ≡ kept words.old r }
{
    if r.number == 0 {
        put_front(words, r.front);
    }
}

// Takes a reading, as `read_tick`; at a refusal no word is stored.
pub fn read_words(words: &mut [u64; FRONT], tick: u64) -> Answer
    ensures value { result ≡ answer (reading_in words.old tick) }
    ensures words_after { words.new ≡ words_left words.old tick }
{
    let r = read_tick(front_in(words), (tick % ROUND) as u32);
    keep_front(words, r);
    Answer {
        number: r.number,
        seconds: r.seconds,
    }
}
