// An answer as text: its number, and a plan's rows.
ghost use Rattle.std.specs.Prelude.{◌≡◌, cond, ltb};
ghost use Rattle.wire_bytes.specs.Bytes.{put_whole, past_whole};
ghost use Rattle.text.specs.Pieces.{put_all, past_all};
ghost use Rattle.bench_script.specs.Answers.{cell, row_pieces, table_pieces, answer_pieces};

use kernel::ROW;

fn put_cell(out: &mut [u8], at: usize, n: i64) -> usize
    ensures value { result ≡ past_whole out.old at (cell n) }
    ensures out_after { out.new ≡ put_whole out.old at (cell n) }
{
    if n < 0 {
        return wire_bytes::put_byte(out, at, b'-');
    }
    text::put_decimal(out, at, n as u64)
}

// What stands behind the first `i` of `len` numbers.
fn behind(i: usize, len: usize) -> u8
    ensures { result ≡ cond (ltb i len) 32 10 }
{
    if i < len { b' ' } else { b'\n' }
}

fn put_row(out: &mut [u8], at: usize, row: &[i64]) -> usize
    ensures value { result ≡ past_all out.old at (row_pieces row.now) }
    ensures out_after { out.new ≡ put_all out.old at (row_pieces row.now) }
{
    let mut p = at;
    for (i, x) in row.iter().enumerate() {
        p = put_cell(out, p, *x);
        p = wire_bytes::put_byte(out, p, behind(i + 1, row.len()));
    }
    p
}

// Writes the first `count` rows: the last may be cut, and there is none where the numbers end.
fn put_rows(out: &mut [u8], at: usize, rows: &[i64], count: u64) -> usize
    ensures value { result ≡ past_all out.old at (table_pieces count rows.now) }
    ensures out_after { out.new ≡ put_all out.old at (table_pieces count rows.now) }
{
    let mut p = at;
    for row in rows.chunks(ROW).take(count as usize) {
        p = put_row(out, p, row);
    }
    p
}

// Writes a number and a newline, then `count` rows, and says the position past them.
pub fn print_answer(out: &mut [u8], at: usize, number: u64, rows: &[i64], count: u64) -> usize
    ensures value { result ≡ past_all out.old at (answer_pieces number count rows.now) }
    ensures out_after { out.new ≡ put_all out.old at (answer_pieces number count rows.now) }
{
    let p = text::put_decimal(out, at, number);
    let q = wire_bytes::put_byte(out, p, b'\n');
    put_rows(out, q, rows, count)
}
