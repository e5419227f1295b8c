// From piece to piece of a script: a piece is a record, or a longest run of bytes at which none starts.
ghost use Rattle.std.specs.Prelude.{◌≡◌, ◌+◌, ◌≤◌, ◌<◌, length, drop};
ghost use Rattle.rescue_walk.specs.Walk.{record_end, run_len};
ghost use Rattle.rescue_walk.specs.Steps.{Reached, next_of, counted};

use bench_records::read_record;

// Where the walk stands; the bytes kept and the runs before it.
#[derive(Clone, Copy, Default)]
pub(crate) struct Cursor {
    pub(crate) at: usize,
    pub(crate) kept: usize,
    pub(crate) runs: usize,
}

// The position behind the record that starts at `at`, if one does.
fn record_end(s: &[u8], at: usize) -> Option<usize>
    ensures { result ≡ record_end s.now at }
{
    let r = read_record(s, at)?;
    Some(r.body + r.length)
}

// The end of the run at `at`: the next record's start, or the script's end.
fn run_end(s: &[u8], at: usize) -> usize
    requires { at ≤ length s.now }
    ensures { result ≡ at + run_len (drop at s.now) }
{
    for e in at..s.len() {
        if record_end(s, e).is_some() {
            return e;
        }
    }
    s.len()
}

// Behind the next piece.
pub(crate) fn next(s: &[u8], c: Cursor) -> Cursor
    requires { Reached s.now c × (c.at < length s.now) }
    ensures { result ≡ next_of s.now c }
{
    match record_end(s, c.at) {
        Some(end) => Cursor {
            at: end,
            kept: c.kept + (end - c.at),
            ..c
        },
        None => Cursor {
            at: run_end(s, c.at),
            runs: c.runs + 1,
            ..c
        },
    }
}

// The bytes kept of a whole script, and its runs.
pub(crate) fn count(s: &[u8]) -> Cursor
    ensures value { result ≡ counted s.now }
    ensures runs_in_bounds { result.runs ≤ length s.now }
{
    let mut c = Cursor::default();
    // By hand: where the next piece begins only this one tells.
    while c.at < s.len() {
        c = next(s, c);
    }
    c
}
