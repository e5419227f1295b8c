// The pieces of a script written: records into the output, runs into the report.
ghost use Rattle.std.specs.Prelude.{◌≡◌, ◌≤◌, length};
ghost use Rattle.rescue_walk.specs.Walk.{rescued, runs};
ghost use Rattle.rescue_walk.specs.Steps.{Room, next_of, out_next, report_next, front};

use crate::steps::{Cursor, next};

// Writes the next piece: a record's bytes, or a run's offset and length.
fn put_piece(s: &[u8], out: &mut [u8], report: &mut [u64], c: Cursor) -> Cursor
    requires { Room s.now out.old report.old c }
    ensures value { result ≡ next_of s.now c }
    ensures out_after { out.new ≡ out_next s.now out.old c }
    ensures report_after { report.new ≡ report_next s.now report.old c }
{
    let n = next(s, c);
    if n.runs == c.runs {
        // By a writer for which every place will do, so that a wrong place is refused for the bytes, and not for a bound.
        wire_bytes::put_bytes(out, c.kept, &s[c.at..], n.at - c.at);
        return n;
    }
    let i = 2 * c.runs;
    report[i] = c.at as u64;
    report[i + 1] = (n.at - c.at) as u64;
    n
}

// Writes all pieces; there is room.
pub(crate) fn write(s: &[u8], out: &mut [u8], report: &mut [u64])
    requires { (length (rescued s.now) ≤ length out.old) × (length (runs s.now) ≤ length report.old) }
    ensures out_after { out.new ≡ front out.old (rescued s.now) }
    ensures report_after { report.new ≡ front report.old (runs s.now) }
{
    let mut c = Cursor::default();
    // By hand: where the next piece begins only this one tells.
    while c.at < s.len() {
        c = put_piece(s, out, report, c);
    }
}
