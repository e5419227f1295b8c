// A scrap taken: decided first, then copied.
ghost use Rattle.std.specs.Prelude.{◌≡◌, true, ◌+◌, ◌<◌, ◌≤◌, ◌^◌, length};
ghost use Rattle.receiver.specs.Receive.{is_open, taking, record_at, received, Does};

use crate::ends::end_of;
use crate::record::{Answer, Decision, Record, is_open, length_at, record_at, refuse};
use refusals::{BAD_LENGTH, NO_SPACE};
use wire_prefix::{FRAME, is_bad_end};

// Takes n bytes behind `have`, of a frame that ends at `end`.
fn accept(have: usize, end: usize, n: usize) -> Decision
    requires { have + n < 2 ^ 64 }
    ensures answer_value { result.answer ≡ taking (have + n) end n }
    ensures after_value { result.after ≡ record_at (have + n) end }
{
    Decision {
        answer: Answer {
            number: 0,
            taken: n,
            length: length_at(have + n, end),
        },
        after: record_at(have + n, end),
    }
}

// Decides while the prefix is not whole in the room.
fn at_prefix(r: Record, room: &[u8], scrap: &[u8]) -> Decision
    requires { (is_open r ≡ true) × (2052 ≤ length room.now) × (r.need ≡ 0) }
    ensures answer_value { result.answer ≡ (received r room.now scrap.now).answer }
    ensures after_value { result.after ≡ (received r room.now scrap.now).after }
{
    let end = end_of(r.have, room, scrap);
    if is_bad_end(end) {
        return refuse(
            BAD_LENGTH,
            Record {
                have: 0,
                need: 0,
                closed: 1,
            },
        );
    }
    let n = scrap.len().min(end - r.have);
    accept(r.have, end, n)
}

// What a scrap leads to; nothing is stored yet.
fn decide(r: Record, room: &[u8], scrap: &[u8]) -> Decision
    ensures answer_value { result.answer ≡ (received r room.now scrap.now).answer }
    ensures after_value { result.after ≡ (received r room.now scrap.now).after }
{
    if room.len() < FRAME {
        return refuse(NO_SPACE, r);
    }
    if !is_open(r) {
        return refuse(BAD_LENGTH, r);
    }
    if r.need == 0 {
        return at_prefix(r, room, scrap);
    }
    let n = scrap.len().min(r.need - r.have);
    accept(r.have, r.need, n)
}

// Takes bytes of a scrap up to the end of one frame, the record by value.
pub fn step(r: Record, room: &mut [u8], scrap: &[u8]) -> Decision
    ensures { Does (received r room.old scrap.now) result.answer result.after room.new }
{
    let x = decide(r, room, scrap);
    // By index: `put_bytes` tests for room once more, and scraps of 64 bytes then miss their bar of speed.
    for i in 0..x.answer.taken {
        room[r.have + i] = scrap[i];
    }
    x
}

// Takes bytes of a scrap up to the end of one frame; the record is lent and updated where the driver keeps it.
pub fn receive<'a, 'b, 'c>(r: &'a mut Record, room: &'b mut [u8], scrap: &'c [u8]) -> Answer
    ensures { Does (received r.old room.old scrap.now) result r.new room.new }
{
    let x = step(*r, room, scrap);
    *r = x.after;
    x.answer
}
