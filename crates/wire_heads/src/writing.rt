// Heads, written.
ghost use Rattle.std.specs.Prelude.{◌≡◌, ◌+◌, ◌≤◌, length};
ghost use Rattle.wire_bytes.specs.Bytes.{bytes_of, put, put_whole, past_whole};
ghost use Rattle.wire_heads.specs.Head.{info_of, width_of, head_of};

use crate::sizes::{head_len, info_of};
use wire_bytes::has_room;

// Stores the low two, four and eight bytes of `v`, for which there is room: to test it again here costs a tenth of a frame.
fn put16(out: &mut [u8], at: usize, v: u64)
    requires { at + 2 ≤ length out.old }
    ensures { out.new ≡ put out.old at (bytes_of 2 v) }
{
    out[at] = (v / 256 % 256) as u8;
    out[at + 1] = (v % 256) as u8;
}

fn put32(out: &mut [u8], at: usize, v: u64)
    requires { at + 4 ≤ length out.old }
    ensures { out.new ≡ put out.old at (bytes_of 4 v) }
{
    put16(out, at, v / 65536);
    put16(out, at + 2, v);
}

fn put64(out: &mut [u8], at: usize, v: u64)
    requires { at + 8 ≤ length out.old }
    ensures { out.new ≡ put out.old at (bytes_of 8 v) }
{
    put32(out, at, v / 4294967296);
    put32(out, at + 4, v);
}

// Stores the bytes of an argument, behind the first byte of its head.
#[tactic(auto, using(crate::proofs::Widths::arg_width_2, crate::proofs::Widths::arg_width_4))]
fn put_argument(out: &mut [u8], at: usize, arg: u64)
    requires { at + width_of (info_of arg) ≤ length out.old }
    ensures { out.new ≡ put out.old at (bytes_of (width_of (info_of arg)) arg) }
{
    if arg < 24 {
        return;
    }
    if arg < 256 {
        out[at] = (arg % 256) as u8;
        return;
    }
    if arg < 65536 {
        put16(out, at, arg);
        return;
    }
    if arg < 4294967296 {
        put32(out, at, arg);
        return;
    }
    put64(out, at, arg);
}

// Writes the head of a major type and an argument where it fits, and says the position past it; nothing otherwise.
pub fn put_head(out: &mut [u8], at: usize, major: u64, arg: u64) -> usize
    ensures value { result ≡ past_whole out.old at (head_of major arg) }
    ensures out_after { out.new ≡ put_whole out.old at (head_of major arg) }
{
    let len = head_len(arg);
    if major < 8 {
        if has_room(out.len(), at, len) {
            let info = info_of(arg);
            out[at] = (major * 32 + info) as u8;
            put_argument(out, at + 1, arg);
            return at + len;
        }
    }
    at
}
