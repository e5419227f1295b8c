// What the programs share of their streams: buffers by value, a read that goes on until its buffer is full, and a write of a
// buffer's front. A stream is lent, so that a program hands its own and a test what it likes. A read that fails is handed on as its error, also one that a
// signal interrupts before it moves a byte.
#![tactic(auto)]

ghost use Rattle.std.specs.Prelude.{◌≡◌, ◌≤◌, length, take, OnOk};
ghost use Rattle.std.specs.Io.{ReadsAtMost};
ghost use Rattle.std.specs.Io.KnownBytes.{Appends};

use std::io;
use std::io::{Read, Write};

// 4,096 zeros. Two functions and no size as a parameter: a caller would say the size again, and each is one expression.
pub fn buffer() -> [u8; 4096]
    ensures { 4096 ≡ length result }
{
    [0; 4096]
}

// 65,536 zeros, for a loop that moves much data and would spend its time on calls of 4,096 bytes.
pub fn large_buffer() -> [u8; 65536]
    ensures { 65536 ≡ length result }
{
    [0; 65536]
}

// Reads until `buf` is full or the input ends, and says how many bytes it put at the start of `buf`. Where `buf` is empty it
// makes no call. Where a read fails, what the reads before it brought stands at the start of `buf`, and no one says how much.
pub fn read_full<R: Read>(input: &mut R, buf: &mut [u8]) -> io::Result<usize>
    ensures { ReadsAtMost result buf.new }
{
    let mut done = 0;
    // By hand: each read says how far it came, and the library's `read_exact` fails where the input ends.
    while done < buf.len() {
        let n = input.read(&mut buf[done..])?;
        if n == 0 {
            break;
        }
        done += n;
    }
    Ok(done)
}

// Writes the first `n` bytes, and nothing where there are fewer.
pub fn write_front<W: Write>(output: &mut W, bytes: &[u8], n: usize) -> io::Result<()>
    ensures { OnOk result (n ≤ length bytes.now → Appends (W.contents output.old) (W.contents output.new) (take n bytes.now)) }
{
    if let Some(front) = bytes.get(..n) {
        output.write_all(front)?;
    }
    Ok(())
}
