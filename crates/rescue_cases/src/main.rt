// Rescues damaged scripts one after the other, each behind four bytes of length: a line `script N`, then what `rescue` says on
// the error output, then what the bench prints for what came out.
#![tactic(auto)]

use kernel::{PLAN, RESPONSE, State, WORDS};
use rescue_walk::{REPORT, SCRIPT};
use std::io;
use std::io::{Read, Write};

// Runs the record at `at` and prints its answer; says where the next one starts, the end behind a bad one.
fn step<W: Write>(
    output: &mut W,
    d: &mut State,
    s: &[u8],
    at: usize,
    page: &mut [u8],
    out: &mut [u8],
    rows: &mut [i64],
) -> io::Result<usize> {
    let Some(x) = bench_script::step(d, s, at, out, rows) else {
        output.write_all(b"bad record\n")?;
        return Ok(s.len());
    };
    let n = bench_script::print_answer(page, 0, x.number, rows, x.count);
    program_io::write_front(output, page, n)?;
    Ok(x.next)
}

fn play_with<W: Write>(
    output: &mut W,
    d: &mut State,
    s: &[u8],
    page: &mut [u8],
    out: &mut [u8],
    rows: &mut [i64],
) -> io::Result<()> {
    let mut at = 0;
    // By hand: each step tells where the next record starts, and a script has no more records than bytes.
    for _ in 0..s.len() {
        if s.len() <= at {
            break;
        }
        at = step(output, d, s, at, page, out, rows)?;
    }
    Ok(())
}

// Plays a script on a fresh device.
fn play<W: Write>(output: &mut W, s: &[u8], page: &mut [u8]) -> io::Result<()> {
    let mut d = [0u64; WORDS];
    let _ = kernel::start(&mut d, bench_script::bench_settings());
    let mut out = [0u8; RESPONSE];
    let mut rows = [0i64; PLAN];
    play_with(output, &mut d, s, page, &mut out, &mut rows)
}

fn run<W: Write>(
    output: &mut W,
    input: &[u8],
    kept: &mut [u8],
    report: &mut [u64],
    page: &mut [u8],
) -> io::Result<()> {
    let x = rescue_walk::rescue(input, kept, report);
    let n = rescue_walk::put_text(page, 0, x.number, x.runs, report);
    program_io::write_front(output, page, n)?;
    if let Some(s) = kept.get(..x.length) {
        play(output, s, page)?;
    }
    Ok(())
}

fn rescue<W: Write>(output: &mut W, input: &[u8]) -> io::Result<()> {
    let mut kept = [0u8; SCRIPT];
    let mut report = [0u64; REPORT];
    let mut page = program_io::large_buffer();
    run(output, input, &mut kept, &mut report, &mut page)
}

// Reads and rescues a script of so many bytes; says false where it is cut, or longer than one byte above the size.
fn take<R: Read, W: Write>(
    input: &mut R,
    output: &mut W,
    script: &mut [u8],
    size: usize,
) -> io::Result<bool> {
    let Some(s) = script.get_mut(..size) else {
        return Ok(false);
    };
    let got = program_io::read_full(input, s)?;
    rescue(output, s)?;
    Ok(got == size)
}

// The next script; says false where there is none.
fn case<R: Read, W: Write>(input: &mut R, output: &mut W, n: u64) -> io::Result<bool> {
    let mut prefix = [0u8; 4];
    if program_io::read_full(input, &mut prefix)? < 4 {
        return Ok(false);
    }
    writeln!(output, "script {n}")?;
    let mut script = [0u8; SCRIPT + 1];
    let size = wire_bytes::get_u32(&prefix, 0) as usize;
    take(input, output, &mut script, size)
}

fn main(rt: HostRuntime) -> io::Result<()> {
    let mut input = rt.stdin();
    let mut output = rt.stdout();
    // By hand: a loop must end, and this is a bound that no input comes to. The input's end is the way out.
    for n in 0..u64::MAX {
        if !case(&mut input, &mut output, n)? {
            break;
        }
    }
    Ok(())
}
