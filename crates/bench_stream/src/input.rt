// What of a script is read and not yet run.
ghost use Rattle.std.specs.Prelude.{◌≡◌, ◌+◌, ◌-◌, ◌≤◌, length, take, IfOk, OnErr, MatchResult};
ghost use Rattle.std.specs.Io.KnownBytes.{ConsumesCount};
ghost use Rattle.bench_stream.specs.Buffer.{bytes_in, shifted, is_short, Filled, Takes};

use std::io;
use std::io::Read;

// The bytes of the buffer from `from` to `to`; `left` more may be read.
#[derive(Clone, Copy)]
pub(crate) struct Input {
    pub(crate) from: usize,
    pub(crate) to: usize,
    pub(crate) left: u64,
}

// Moves the bytes from `from` to `to` to the front.
fn shift(buf: &mut [u8], from: usize, to: usize)
    requires { (from ≤ to) × (to ≤ length buf.old) }
    ensures { buf.new ≡ shifted buf.old from to }
{
    buf.copy_within(from..to, 0);
}

// The end of the next read: no more than the buffer holds, and no more than may be read.
fn read_end(len: usize, to: usize, left: u64) -> usize
    requires { to ≤ len }
    ensures { (to ≤ result) × (result ≤ len) × (result ≤ to + left) }
{
    to + left.min((len - to) as u64) as usize
}

// One read behind `to`: how many bytes it brought, 0 at the end of the input. What stands before stays, also where it fails.
fn read_more<R: Read>(input: &mut R, buf: &mut [u8], to: usize, left: u64) -> io::Result<usize>
    requires { to ≤ length buf.old }
    ensures result_in_bounds { IfOk result (λ n. (to + n ≤ length buf.old) × (n ≤ left)) }
    ensures buf_unchanged { take to buf.new ≡ take to buf.old }
    ensures taken { ConsumesCount (R.remaining input.old) (R.remaining input.new) result }
{
    let end = read_end(buf.len(), to, left);
    input.read(&mut buf[to..end])
}

fn is_short(to: usize, left: u64) -> bool
    ensures { result ≡ is_short to left }
{
    to < bench_records::LONGEST && 0 < left
}

// Brings what is left to the front, and reads until a whole record must be there or the input ends. Where a read fails, what was
// left stands at the front. No more is read than may be, also where a read fails.
pub(crate) fn fill<R: Read>(input: &mut R, buf: &mut [u8], x: Input) -> io::Result<Input>
    requires { (x.from ≤ x.to) × (x.to ≤ length buf.old) }
    ensures filled { IfOk result (λ y. Filled buf.old x buf.new y) }
    ensures kept_on_error { OnErr result (take (x.to - x.from) buf.new ≡ bytes_in buf.old x.from x.to) }
    ensures taken { MatchResult result (λ y. Takes (R.remaining input.old) (R.remaining input.new) y.left x.left)
        (λ _. Takes (R.remaining input.old) (R.remaining input.new) 0 x.left) }
{
    shift(buf, x.from, x.to);
    let mut to = x.to - x.from;
    let mut left = x.left;
    // By hand: only a read tells how far it came.
    while is_short(to, left) {
        let n = read_more(input, buf, to, left)?;
        if n == 0 {
            return Ok(Input {
                from: 0,
                to,
                left: 0,
            });
        }
        to += n;
        left -= n as u64;
    }
    Ok(Input { from: 0, to, left })
}
