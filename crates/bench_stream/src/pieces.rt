// The records of one piece of a script.
ghost use Rattle.std.specs.Prelude.{◌≡◌, true, false, List, [], ◌++◌, ℕ, ◌+◌, ◌≤◌, ◌<◌, leb, length, drop};
ghost use Rattle.bench_script.specs.Bench.{script, answer_room, remaining, Comes};
ghost use Rattle.bench_stream.specs.Ready.{is_told, is_ready, PieceRun};

use bench_records::{LONGEST, read_record};
use kernel::{PLAN, RESPONSE, State};

// A number's digits, and the byte behind them.
const CELL: usize = text::DIGITS + 1;

// Room for the longest answer: a number's line, and the numbers of the longest plan.
const ANSWER: usize = (1 + PLAN) * CELL;

// Records are run up to `from` and answers printed up to `at`; `good` is false behind a bad record.
#[derive(Clone, Copy)]
pub(crate) struct Place {
    pub(crate) from: usize,
    pub(crate) at: usize,
    pub(crate) good: bool,
}

// Runs the record at `p` and prints its answer; behind a bad one nothing is left to run.
fn next(
    d: &mut State,
    s: &[u8],
    p: Place,
    page: &mut [u8],
    out: &mut [u8; RESPONSE],
    rows: &mut [i64; PLAN],
) -> Place
    requires { (p.from < length s.now) × (p.at + answer_room ≤ length page.old) }
    ensures from_lt_from { (p.from < result.from) × (result.from ≤ length s.now) × (result.good ≡ false → result.from ≡ length s.now) }
    ensures by_index { (more : List ℕ) → (is_told s.now p.from ≡ false → more ≡ [])
        → Comes page.old p.at (script d.old (drop p.from s.now ++ more))
        page.new result.at (remaining result.good d.new (drop result.from s.now ++ more)) }
{
    let Some(x) = bench_script::step(d, s, p.from, out, rows) else {
        return Place {
            from: s.len(),
            at: p.at,
            good: false,
        };
    };
    Place {
        from: x.next,
        at: bench_script::print_answer(page, p.at, x.number, rows, x.count),
        good: true,
    }
}

// Whether there is room for one more answer.
fn has_page(at: usize, len: usize) -> bool
    ensures { result ≡ leb (at + answer_room) len }
{
    at <= len && ANSWER <= len - at
}

// Whether the record at `at` can be told, whatever comes behind the piece.
#[tactic(auto, unfolding(crate::specs::Ready::is_told, crate::specs::Ready::is_record))]
fn is_told(s: &[u8], at: usize) -> bool
    requires { at ≤ length s.now }
    ensures { result ≡ is_told s.now at }
{
    LONGEST <= s.len() - at || read_record(s, at).is_some()
}

// Whether the record at `p` is run.
fn is_ready(s: &[u8], last: bool, page: usize, p: Place) -> bool
    ensures { result ≡ is_ready s.now last page p }
{
    p.from < s.len() && has_page(p.at, page) && (last || is_told(s, p.from))
}

// Runs the records at the front of `s` and prints their answers from the front of `page`, as long as one is ready.
pub(crate) fn run(
    d: &mut State,
    s: &[u8],
    last: bool,
    page: &mut [u8],
    out: &mut [u8; RESPONSE],
    rows: &mut [i64; PLAN],
) -> Place
    ensures { PieceRun d.old s.now last page.old result d.new page.new }
{
    let mut p = Place {
        from: 0,
        at: 0,
        good: true,
    };
    // By hand: where the next record begins only this one tells.
    while is_ready(s, last, page.len(), p) {
        p = next(d, s, p, page, out, rows);
    }
    p
}
