// Reads a damaged bench script from standard input, writes its whole, sound records to standard output, and says on the error
// output, one line each, which bytes it passed over.
#![tactic(auto)]

ghost use Rattle.std.specs.Prelude.{◌≡◌, ◌≤◌, length, take};
ghost use Rattle.rescue_walk.specs.Rescue.{longest_script};
ghost use Rattle.rescue_walk.specs.Program.{kept_text, said_text, report_room, text_room};

use rescue_walk::{REPORT, SCRIPT, TEXT};
use std::io;

// How many bytes come out, and how many are said.
#[derive(Clone, Copy)]
struct Done {
    kept: usize,
    said: usize,
}

// Rescues a script: what comes out stands at the front of `out`, all that is said of it at the front of `page`.
fn run(input: &[u8], out: &mut [u8], report: &mut [u64], page: &mut [u8]) -> Done
    requires { (longest_script ≤ length out.old) × (report_room ≤ length report.old) × (text_room ≤ length page.old) }
    ensures kept_value { (result.kept ≡ length (kept_text input.now)) × (take result.kept out.new ≡ kept_text input.now) }
    ensures said_value { (result.said ≡ length (said_text input.now)) × (take result.said page.new ≡ said_text input.now) }
{
    let x = rescue_walk::rescue(input, out, report);
    Done {
        kept: x.length,
        said: rescue_walk::put_text(page, 0, x.number, x.runs, report),
    }
}

fn main(rt: HostRuntime) -> io::Result<()> {
    let mut input = [0u8; SCRIPT + 1];
    let mut out = [0u8; SCRIPT];
    let mut report = [0u64; REPORT];
    let mut page = [0u8; TEXT];
    let n = program_io::read_full(&mut rt.stdin(), &mut input)?;
    let x = run(&input[..n], &mut out, &mut report, &mut page);
    program_io::write_front(&mut rt.stdout(), &out, x.kept)?;
    program_io::write_front(&mut rt.stderr(), &page, x.said)
}
