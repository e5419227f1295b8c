// What a writer of bytes answers, and a payload put at the front of a lent buffer, alone or behind its length.
#![tactic(auto)]

ghost use Rattle.std.specs.Prelude.{◌≡◌, length};
ghost use Rattle.wire_prefix.specs.Prefix.{frame_of};
ghost use Rattle.wire_output.specs.Writing.{refused_with, written_of, left_by};

use refusals::NO_SPACE;
use wire_bytes::has_room;
use wire_prefix::PREFIX;

// What a writer answers: the refusal number or 0, and the length of what was written.
#[repr(C)]
#[derive(Clone, Copy)]
pub struct Written {
    pub number: u64,
    pub length: usize,
}

// Refuses with n, and writes nothing.
pub fn refused(n: u64) -> Written
    ensures { result ≡ refused_with n }
{
    Written {
        number: n,
        length: 0,
    }
}

// Writes a payload, where all of it fits.
pub fn write_payload(out: &mut [u8], payload: &[u8]) -> Written
    ensures value { result ≡ written_of 0 payload.now (length out.old) }
    ensures out_after { out.new ≡ left_by 0 payload.now out.old }
{
    let n = payload.len();
    if has_room(out.len(), 0, n) {
        wire_bytes::put_bytes(out, 0, payload, n);
        return Written {
            number: 0,
            length: n,
        };
    }
    refused(NO_SPACE)
}

// Writes a payload behind its length, where all of it fits.
pub fn write_frame(out: &mut [u8], payload: &[u8]) -> Written
    ensures value { result ≡ written_of 0 (frame_of payload.now) (length out.old) }
    ensures out_after { out.new ≡ left_by 0 (frame_of payload.now) out.old }
{
    let n = payload.len();
    if has_room(out.len(), PREFIX, n) {
        wire_bytes::put_u32(out, 0, n as u64);
        wire_bytes::put_bytes(out, PREFIX, payload, n);
        return Written {
            number: 0,
            length: PREFIX + n,
        };
    }
    refused(NO_SPACE)
}
