// The record and the answer's counts as lent words, for drivers in C on every board.
ghost use Rattle.std.specs.Prelude.{◌≡◌};
ghost use Rattle.std.proofs.lemmas.List.Edits.{sets};
ghost use Rattle.receiver.specs.Receive.{received};
ghost use Rattle.receiver.specs.Words.{record_in, record_words, answer_words, words_left, counts_left};

use crate::calls::step;
use crate::record::{Answer, Record};

// How many words a record has: have, need, closed.
pub const RECORD: usize = 3;

// How many words an answer has beside its number: bytes taken, length of the frame.
pub const COUNTS: usize = 2;

#[tactic(auto, unfolding(crate::specs::Words::record_in))]
fn record_in(words: &[u64; RECORD]) -> Record
    ensures { result ≡ record_in words.now }
{
    Record {
        have: words[0] as usize,
        need: words[1] as usize,
        closed: words[2],
    }
}

#[tactic(auto, unfolding(crate::specs::Words::record_words))]
fn put_record(words: &mut [u64; RECORD], r: Record)
    ensures { words.new ≡ sets words.old 0 (record_words r) }
{
    *words = [r.have as u64, r.need as u64, r.closed];
}

#[tactic(auto, unfolding(crate::specs::Words::answer_words))]
fn put_counts(counts: &mut [u64; COUNTS], a: Answer)
    ensures { counts.new ≡ sets counts.old 0 (answer_words a) }
{
    *counts = [a.taken as u64, a.length as u64];
}

// Takes bytes of a scrap up to the end of one frame, as `receive`; the record and the answer's counts are lent words.
pub fn receive_words(
    words: &mut [u64; RECORD],
    room: &mut [u8],
    scrap: &[u8],
    counts: &mut [u64; COUNTS],
) -> u64
    ensures value { result ≡ (received (record_in words.old) room.old scrap.now).answer.number }
    ensures words_after { words.new ≡ words_left words.old room.old scrap.now }
    ensures room_after { room.new ≡ (received (record_in words.old) room.old scrap.now).room }
    ensures counts_after { counts.new ≡ counts_left counts.old words.old room.old scrap.now }
{
    let x = step(record_in(words), room, scrap);
    put_record(words, x.after);
    put_counts(counts, x.answer);
    x.answer.number
}
