// What the program `rescue` says on the error output: a line for each run, or the refusal.
ghost use Rattle.std.specs.Prelude.{◌≡◌};
ghost use Rattle.text.specs.Pieces.{put_all, past_all};
ghost use Rattle.rescue_walk.specs.Lines.{line_pieces, lines_in, refusal_pieces, text_pieces};

fn put_line(out: &mut [u8], at: usize, offset: u64, length: u64) -> usize
    ensures value { result ≡ past_all out.old at (line_pieces offset length) }
    ensures out_after { out.new ≡ put_all out.old at (line_pieces offset length) }
{
    let p = text::put_decimal(out, at, offset);
    let q = wire_bytes::put_byte(out, p, b' ');
    let r = text::put_decimal(out, q, length);
    wire_bytes::put_byte(out, r, b'\n')
}

// Writes a line for each run of a report, and says the position past them.
fn put_lines(out: &mut [u8], at: usize, report: &[u64]) -> usize
    ensures value { result ≡ past_all out.old at (lines_in report.now) }
    ensures out_after { out.new ≡ put_all out.old at (lines_in report.now) }
{
    let (runs, _) = report.as_chunks::<2>();
    let mut p = at;
    for [offset, length] in runs {
        p = put_line(out, p, *offset, *length);
    }
    p
}

// Writes a refusal, and says the position past it.
fn put_refusal(out: &mut [u8], at: usize, number: u64) -> usize
    ensures value { result ≡ past_all out.old at (refusal_pieces number) }
    ensures out_after { out.new ≡ put_all out.old at (refusal_pieces number) }
{
    let p = wire_bytes::put_bytes(out, at, b"refused ", 8);
    let q = text::put_decimal(out, p, number);
    wire_bytes::put_byte(out, q, b'\n')
}

// Writes what is said of a rescue that answered `number`, and left `runs` runs in `report`.
pub fn put_text(out: &mut [u8], at: usize, number: u64, runs: usize, report: &[u64]) -> usize
    ensures value { result ≡ past_all out.old at (text_pieces number runs report.now) }
    ensures out_after { out.new ≡ put_all out.old at (text_pieces number runs report.now) }
{
    if number != 0 {
        return put_refusal(out, at, number);
    }
    if runs <= report.len() / 2 {
        return put_lines(out, at, &report[..2 * runs]);
    }
    put_lines(out, at, report)
}
