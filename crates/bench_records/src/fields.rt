// The mark, and the fields in front of a body.
ghost use Rattle.std.specs.Prelude.{◌≡◌, ◌+◌, ◌≤◌, ◌<◌, length};
ghost use Rattle.bench_records.specs.Kinds.{head};
ghost use Rattle.bench_records.specs.Records.{is_mark, fields_at, record_at};

use crate::HEAD;
use crate::kinds::is_right_body;
use wire_bytes::{byte_at, get_u16, get_u32, has_room};

// A record's fields; its body stands at `body` in the script.
#[derive(Clone, Copy)]
pub struct Record {
    pub kind: u64,
    pub zone: u64,
    pub time: u64,
    pub body: usize,
    pub length: usize,
}

// Whether the mark stands at `at`.
pub fn is_mark(s: &[u8], at: usize) -> bool
    ensures { result ≡ is_mark s.now at }
{
    at <= s.len() && s[at..].starts_with(b"MH")
}

// The fields of the record at `at`, and the body behind them.
fn fields_at(s: &[u8], at: usize) -> Record
    requires { at + head ≤ length s.now }
    ensures value { result ≡ fields_at s.now at }
    ensures length_bound { result.length < 65536 }
{
    // A slice of ten bytes: its readers need not test again whether a byte is there.
    let front = &s[at..at + HEAD];
    Record {
        kind: byte_at(front, 2),
        zone: byte_at(front, 3),
        time: get_u32(front, 4),
        body: at + HEAD,
        length: get_u16(front, 8) as usize,
    }
}

// The record at `at`, where it is whole and well-formed.
pub fn read_record(s: &[u8], at: usize) -> Option<Record>
    ensures { result ≡ record_at s.now at }
{
    if !has_room(s.len(), at, HEAD) {
        return None;
    }
    if !is_mark(s, at) {
        return None;
    }
    let r = fields_at(s, at);
    if !is_right_body(r.kind, r.length) {
        return None;
    }
    has_room(s.len(), r.body, r.length).then_some(r)
}
