// Decimal and signed decimal.
ghost use Rattle.std.specs.Prelude.{◌≡◌, [], ◌∷◌, ◌+◌, ◌≤◌, length};
ghost use Rattle.wire_bytes.specs.Bytes.{put, put_whole, past_whole};
ghost use Rattle.text.specs.Text.{digits, width_in, most_digits, decimal, signed};

use wire_bytes::has_room;

// The most digits of a number.
pub const DIGITS: usize = 20;

// How many digits a number has; 0 has one.
fn width_of(n: u64) -> usize
    ensures value { result ≡ width_in 19 n }
    ensures upper_bound { result ≤ most_digits }
{
    // Most numbers of an answer have one digit, and the logarithm costs more than to see that.
    if n < 10 {
        return 1;
    }
    match n.checked_ilog10() {
        Some(power) => power as usize + 1,
        None => 1,
    }
}

// Stores the low `width` digits of `n`, the last one first.
fn put_digits(out: &mut [u8], at: usize, width: usize, n: u64)
    requires { at + width ≤ length out.old }
    ensures { out.new ≡ put out.old at (digits width n) }
{
    let mut rest = n;
    for i in (0..width).rev() {
        out[at + i] = b'0' + (rest % 10) as u8;
        rest /= 10;
    }
}

pub fn put_decimal(out: &mut [u8], at: usize, n: u64) -> usize
    ensures value { result ≡ past_whole out.old at (decimal n) }
    ensures out_after { out.new ≡ put_whole out.old at (decimal n) }
{
    let width = width_of(n);
    if has_room(out.len(), at, width) {
        put_digits(out, at, width, n);
        return at + width;
    }
    at
}

// A minus sign and the digits of `n`.
fn put_minus(out: &mut [u8], at: usize, n: u64) -> usize
    ensures value { result ≡ past_whole out.old at (45 ∷ decimal n) }
    ensures out_after { out.new ≡ put_whole out.old at (45 ∷ decimal n) }
{
    let width = width_of(n);
    let size = 1 + width;
    if has_room(out.len(), at, size) {
        out[at] = b'-';
        put_digits(out, at + 1, width, n);
        return at + size;
    }
    at
}

pub fn put_signed(out: &mut [u8], at: usize, n: i64) -> usize
    ensures value { result ≡ past_whole out.old at (signed n) }
    ensures out_after { out.new ≡ put_whole out.old at (signed n) }
{
    let size = n.unsigned_abs();
    if n < 0 {
        put_minus(out, at, size)
    } else {
        put_decimal(out, at, size)
    }
}
