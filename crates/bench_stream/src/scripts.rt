// A script from its first record to its last.
ghost use Rattle.std.specs.Prelude.{◌≡◌, true, ◌≤◌, length, IfOk, MatchResult};
ghost use Rattle.bench_script.specs.Bench.{answer_room};
ghost use Rattle.bench_stream.specs.Buffer.{Takes};
ghost use Rattle.bench_stream.specs.Ready.{goes_on};

use crate::input::{Input, fill};
use crate::pieces::{Place, run};
use kernel::{PLAN, RESPONSE, State, WORDS};
use std::io;
use std::io::{Read, Write};

// How a script ended: at a bad record, or at the end of what may be read; and how many bytes of that were not read.
// By hand: the clauses say `left` of a good end too, where an Option would have to be taken apart.
#[derive(Clone, Copy)]
pub struct Ended {
    pub left: u64,
    pub good: bool,
}

// Writes the answers on a page, and the last line where a record was bad.
fn show<W: Write>(output: &mut W, page: &[u8], p: Place) -> io::Result<()> {
    program_io::write_front(output, page, p.at)?;
    if !p.good {
        output.write_all(b"bad record\n")?;
    }
    Ok(())
}

// A piece in which nothing was run is the last.
fn goes_on(p: Place) -> bool
    ensures { result ≡ goes_on p }
{
    0 < p.from && p.good
}

// Plays up to `limit` bytes of the input, piece by piece: up to a bad record, or all of them.
fn play_with<R: Read, W: Write>(
    input: &mut R,
    output: &mut W,
    d: &mut State,
    limit: u64,
    buf: &mut [u8],
    page: &mut [u8],
    out: &mut [u8; RESPONSE],
    rows: &mut [i64; PLAN],
) -> io::Result<Ended>
    requires { answer_room ≤ length page.old }
    ensures ended { IfOk result (λ e. (e.left ≤ limit) × (e.good ≡ true → e.left ≡ 0)) }
    ensures taken { MatchResult result (λ e. Takes (R.remaining input.old) (R.remaining input.new) e.left limit)
        (λ _. Takes (R.remaining input.old) (R.remaining input.new) 0 limit) }
{
    let mut x = Input {
        from: 0,
        to: 0,
        left: limit,
    };
    // By hand: only a read tells how much of the script comes next.
    loop {
        x = fill(input, buf, x)?;
        let p = run(d, &buf[..x.to], x.left == 0, page, out, rows);
        show(output, page, p)?;
        if !goes_on(p) {
            return Ok(Ended {
                left: x.left,
                good: p.good,
            });
        }
        x.from = p.from;
    }
}

// Plays a script of at most `limit` bytes on a fresh device. A script without a bad record is read to its end. Where a read or a
// write fails, some of the script is read and not run, or run and its answers not written whole; never is more read than `limit`.
pub fn play<R: Read, W: Write>(input: &mut R, output: &mut W, limit: u64) -> io::Result<Ended>
    ensures ended { IfOk result (λ e. (e.left ≤ limit) × (e.good ≡ true → e.left ≡ 0)) }
    ensures taken { MatchResult result (λ e. Takes (R.remaining input.old) (R.remaining input.new) e.left limit)
        (λ _. Takes (R.remaining input.old) (R.remaining input.new) 0 limit) }
{
    let mut d = [0u64; WORDS];
    let _ = kernel::start(&mut d, bench_script::bench_settings());
    let mut buf = program_io::large_buffer();
    let mut page = program_io::large_buffer();
    let mut out = [0u8; RESPONSE];
    let mut rows = [0i64; PLAN];
    play_with(
        input, output, &mut d, limit, &mut buf, &mut page, &mut out, &mut rows,
    )
}
