// `frame ZONE TIME ROOM BYTES`, `request BYTES`, `response COMMAND BYTES`: frames given to the device, and the codecs alone.

use console_line::{Command, FIELDS};
use console_words::{put_bad, put_bytes, read_hex};
use kernel::{FRAME, Refusal, State};

fn frame(d: &mut State, f: [u64; FIELDS], bytes: &[u8], out: &mut [u8], at: usize) -> usize {
    let mut response = [0u8; FRAME];
    let lent = FRAME.min(f[2] as usize);
    let r = kernel::frame(d, f[0], f[1], bytes, &mut response[..lent]);
    put_bytes(out, at, r.number, &response, r.length)
}

fn request(bytes: &[u8], out: &mut [u8], at: usize) -> usize {
    let mut again = [0u8; FRAME];
    match kernel::read_request(bytes) {
        kernel::Reading::Is(r) => {
            let w = kernel::write_request(&mut again, r);
            put_bytes(out, at, w.number, &again, w.length)
        }
        kernel::Reading::Unserved(_) => {
            put_bytes(out, at, Refusal::NotServed.number(), &again, 0)
        }
        kernel::Reading::Refused(n) => put_bytes(out, at, n, &again, 0),
    }
}

fn response(command: u64, bytes: &[u8], out: &mut [u8], at: usize) -> usize {
    let mut again = [0u8; FRAME];
    match kernel::read_response(command, bytes) {
        kernel::Answer::Is(r) => {
            let w = kernel::write_response(&mut again, command, r);
            put_bytes(out, at, w.number, &again, w.length)
        }
        kernel::Answer::Refused(n) => put_bytes(out, at, n, &again, 0),
    }
}

// The commands that have bytes.
fn run_bytes(
    d: &mut State,
    c: Command,
    f: [u64; FIELDS],
    bytes: &[u8],
    out: &mut [u8],
    at: usize,
) -> usize {
    match c {
        Command::Frame => frame(d, f, bytes, out, at),
        Command::Request => request(bytes, out, at),
        _ => response(f[0], bytes, out, at),
    }
}

// Reads the bytes of the last word, and runs the command; its numbers are good.
pub fn with_bytes(
    d: &mut State,
    c: Command,
    f: [u64; FIELDS],
    word: &[u8],
    bytes: &mut [u8],
    out: &mut [u8],
    at: usize,
) -> usize {
    match read_hex(word, bytes) {
        Some(n) => run_bytes(d, c, f, &bytes[..n], out, at),
        None => put_bad(out, at),
    }
}
