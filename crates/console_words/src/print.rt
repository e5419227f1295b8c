// The parts of an answer, written into a lent slice, each where it fits.
ghost use Rattle.std.specs.Prelude.{◌≡◌, [], ◌∷◌};
ghost use Rattle.wire_bytes.specs.Bytes.{put_whole, past_whole};
ghost use Rattle.text.specs.Pieces.{put_all, past_all};
ghost use Rattle.console_words.specs.Answers.{bad_line, number_pieces, hex_or_none, bytes_pieces, list_pieces, pair_pieces, report_pieces};

// The answer to a line that is no command.
pub fn put_bad(out: &mut [u8], at: usize) -> usize
    ensures value { result ≡ past_whole out.old at bad_line }
    ensures out_after { out.new ≡ put_whole out.old at bad_line }
{
    wire_bytes::put_bytes(out, at, b"bad line\n", 9)
}

// The end of an answer.
pub fn put_end(out: &mut [u8], at: usize) -> usize
    ensures value { result ≡ past_whole out.old at (10 ∷ []) }
    ensures out_after { out.new ≡ put_whole out.old at (10 ∷ []) }
{
    wire_bytes::put_byte(out, at, b'\n')
}

// The answer of a call that says its number only.
pub fn put_number(out: &mut [u8], at: usize, number: u64) -> usize
    ensures value { result ≡ past_all out.old at (number_pieces number) }
    ensures out_after { out.new ≡ put_all out.old at (number_pieces number) }
{
    let p = text::put_decimal(out, at, number);
    put_end(out, p)
}

// The first n bytes, or `-`.
pub fn put_hex_or_none(out: &mut [u8], at: usize, bytes: &[u8], n: usize) -> usize
    ensures value { result ≡ past_whole out.old at (hex_or_none bytes.now n) }
    ensures out_after { out.new ≡ put_whole out.old at (hex_or_none bytes.now n) }
{
    if n == 0 {
        return wire_bytes::put_byte(out, at, b'-');
    }
    if n <= bytes.len() {
        return text::put_hex(out, at, &bytes[..n]);
    }
    at
}

// A number, and the first n bytes or `-`.
pub fn put_bytes(out: &mut [u8], at: usize, number: u64, bytes: &[u8], n: usize) -> usize
    ensures value { result ≡ past_all out.old at (bytes_pieces number bytes.now n) }
    ensures out_after { out.new ≡ put_all out.old at (bytes_pieces number bytes.now n) }
{
    let p = text::put_decimal(out, at, number);
    let q = wire_bytes::put_byte(out, p, b' ');
    let r = put_hex_or_none(out, q, bytes, n);
    put_end(out, r)
}

// A space and a number, for each of the first n.
pub fn put_list(out: &mut [u8], at: usize, list: &[i64], n: u64) -> usize
    ensures value { result ≡ past_all out.old at (list_pieces n list.now) }
    ensures out_after { out.new ≡ put_all out.old at (list_pieces n list.now) }
{
    let shown = &list[..list.len().min(n as usize)];
    let mut p = at;
    for x in shown {
        p = wire_bytes::put_byte(out, p, b' ');
        p = text::put_signed(out, p, *x);
    }
    p
}

fn put_pair(out: &mut [u8], at: usize, group: u64, number: u64) -> usize
    ensures value { result ≡ past_all out.old at (pair_pieces group number) }
    ensures out_after { out.new ≡ put_all out.old at (pair_pieces group number) }
{
    let p = wire_bytes::put_byte(out, at, b' ');
    let q = text::put_decimal(out, p, group);
    let r = wire_bytes::put_byte(out, q, b':');
    text::put_decimal(out, r, number)
}

// The first n pairs, or `-`.
pub fn put_pairs(out: &mut [u8], at: usize, pairs: &[u64], n: u64) -> usize
    ensures value { result ≡ past_all out.old at (report_pieces n pairs.now) }
    ensures out_after { out.new ≡ put_all out.old at (report_pieces n pairs.now) }
{
    if n == 0 {
        return wire_bytes::put_bytes(out, at, b" -", 2);
    }
    let (all, _) = pairs.as_chunks::<2>();
    let shown = &all[..all.len().min(n as usize)];
    let mut p = at;
    for [group, number] in shown {
        p = put_pair(out, p, *group, *number);
    }
    p
}
