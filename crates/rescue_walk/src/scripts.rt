// A whole script, rescued.
ghost use Rattle.std.specs.Prelude.{◌≡◌, length};
ghost use Rattle.rescue_walk.specs.Walk.{rescued, runs};
ghost use Rattle.rescue_walk.specs.Rescue.{number, written, answer};

use crate::steps::count;
use crate::writes::write;

// The longest script.
pub const SCRIPT: usize = 16384;

// The most runs: each has a byte at least, and between two of them stands a record.
const RUNS: usize = 1490;

// The most numbers of a report.
pub const REPORT: usize = 2 * RUNS;

// The longest text of a report: in each line two numbers of at most five digits, a space and a newline.
pub const TEXT: usize = 12 * RUNS;

// The refusals: the script is too long, or the output or the report has no room.
const TOO_LONG: u64 = 1;

const NO_ROOM: u64 = 15;

// The refusal number or 0, the bytes written and the runs.
// By hand: each caller prints the number, whether it is a refusal's or 0, so a Result would be taken apart to make it again.
#[derive(Clone, Copy)]
pub struct Rescued {
    pub number: u64,
    pub length: usize,
    pub runs: usize,
}

fn refused(n: u64) -> Rescued
    ensures { result ≡ record { number = n; length = 0; runs = 0 } }
{
    Rescued {
        number: n,
        length: 0,
        runs: 0,
    }
}

// Copies the whole, sound records of a script to the front of `out`, and reports each run of bytes between them by its
// offset and its length.
pub fn rescue(input: &[u8], out: &mut [u8], report: &mut [u64]) -> Rescued
    ensures value { result ≡ answer (number input.now (length out.old) (length report.old)) input.now }
    ensures out_after { out.new
        ≡ written (number input.now (length out.old) (length report.old))
        out.old (rescued input.now) }
    ensures report_after { report.new
        ≡ written (number input.now (length out.old) (length report.old))
        report.old (runs input.now) }
{
    if SCRIPT < input.len() {
        return refused(TOO_LONG);
    }
    let c = count(input);
    if out.len() < c.kept || report.len() < 2 * c.runs {
        return refused(NO_ROOM);
    }
    write(input, out, report);
    Rescued {
        number: 0,
        length: c.kept,
        runs: c.runs,
    }
}
