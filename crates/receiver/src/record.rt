// The receive record: its counts, which of them a call leaves, and what they become.
ghost use Rattle.std.specs.Prelude.{◌≡◌};
ghost use Rattle.receiver.specs.Receive.{is_open, record_at, length_at, refusal};

use wire_prefix::{FRAME, PREFIX};

// `have` bytes stand in the room; once the prefix is whole the frame has `need`, and 0 before. `closed` is 0 or 1,
// and no bool, since C reads it as one word.
#[repr(C)]
#[derive(Clone, Copy)]
pub struct Record {
    pub have: usize,
    pub need: usize,
    pub closed: u64,
}

// The refusal number or 0, how many bytes of the scrap were taken, and the length of the frame given out or 0.
#[repr(C)]
#[derive(Clone, Copy)]
pub struct Answer {
    pub number: u64,
    pub taken: usize,
    pub length: usize,
}

// What a call answers, and the record afterwards.
#[derive(Clone, Copy)]
pub struct Decision {
    pub answer: Answer,
    pub after: Record,
}

// Whether these are counts that a call leaves, and none that closed.
#[tactic(auto, unfolding(crate::specs::Receive::is_open))]
pub fn is_open(r: Record) -> bool
    ensures { result ≡ is_open r }
{
    if r.closed != 0 {
        return false;
    }
    if r.need == 0 {
        return r.have < PREFIX;
    }
    PREFIX <= r.have && r.have < r.need && r.need <= FRAME
}

// The record at `have` bytes of a frame that ends at `end`; as at the start where it is whole.
#[tactic(auto, unfolding(crate::specs::Receive::record_at))]
pub fn record_at(have: usize, end: usize) -> Record
    ensures { result ≡ record_at have end }
{
    if have == end {
        return Record {
            have: 0,
            need: 0,
            closed: 0,
        };
    }
    Record {
        have,
        need: if have < PREFIX { 0 } else { end },
        closed: 0,
    }
}

// The length of a frame that is whole, and 0 of one that is not.
#[tactic(auto, unfolding(crate::specs::Receive::length_at))]
pub fn length_at(have: usize, end: usize) -> usize
    ensures { result ≡ length_at have end }
{
    if have == end { end } else { 0 }
}

// Refuses with a number: nothing is taken, nothing is given out.
pub fn refuse(number: u64, after: Record) -> Decision
    ensures answer_value { result.answer ≡ refusal number }
    ensures after_value { result.after ≡ after }
{
    Decision {
        answer: Answer {
            number,
            taken: 0,
            length: 0,
        },
        after,
    }
}
