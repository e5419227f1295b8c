// Runs bench scripts one after the other, each behind four bytes of length: a line `script N`, then what bench prints.
#![tactic(auto)]

use std::io;
use std::io::{Read, Write};

// Reads `left` bytes and passes them over.
fn skip<R: Read>(input: &mut R, left: u64) -> io::Result<()> {
    let mut room = program_io::large_buffer();
    let buf: &mut [u8] = &mut room;
    let mut rest = left;
    // By hand: only a read tells how much it brings.
    while 0 < rest {
        let end = rest.min(buf.len() as u64) as usize;
        let n = program_io::read_full(input, &mut buf[..end])?;
        if n == 0 {
            return Ok(());
        }
        rest -= n as u64;
    }
    Ok(())
}

// Runs the next script; says false where there is none.
fn case<R: Read, W: Write>(input: &mut R, output: &mut W, n: u64) -> io::Result<bool> {
    let mut prefix = [0u8; 4];
    if program_io::read_full(input, &mut prefix)? < 4 {
        return Ok(false);
    }
    writeln!(output, "script {n}")?;
    let x = bench_stream::play(input, output, wire_bytes::get_u32(&prefix, 0))?;
    skip(input, x.left)?;
    Ok(true)
}

fn main(rt: HostRuntime) -> io::Result<()> {
    let mut input = rt.stdin();
    let mut output = rt.stdout();
    // By hand: a loop must end, and this is a bound that no input comes to. The input's end is the way out.
    for n in 0..u64::MAX {
        if !case(&mut input, &mut output, n)? {
            break;
        }
    }
    Ok(())
}
