// The answer to a line. Each command reads its words, makes one call of the kernel and writes what that answers.
ghost use Rattle.std.specs.Prelude.{◌≡◌};
ghost use Rattle.device_store.specs.Words.{fresh};
ghost use Rattle.device_calls.specs.Start.{refused_settings};

use crate::LONGEST;
use console_kernel_lines::{conf, rows, settings_of, with_bytes};
use console_line::{Command, FIELDS, Line, line_of, read_numbers};
use console_other_lines::{is_rescue, is_scrap, is_tick, meas, rescue, scrap, tick};
use console_words::{put_bad, put_end, put_list, put_number, span, split};
use kernel::{PLAN, Refusal, State};
use receiver::RECORD;
use ticks::FRONT;

// The most words of a line.
const WORDS: usize = 1 + FIELDS;

// The numbers of a plan's row.
const ROW: u64 = kernel::ROW as u64;

// The answer of a call that says its number only.
fn told(answer: Result<(), Refusal>, out: &mut [u8], at: usize) -> usize {
    put_number(out, at, kernel::number_in(answer))
}

// An ask is never refused: its number is 0.
fn ask(d: &State, out: &mut [u8], at: usize) -> usize {
    let values = kernel::ask(d);
    let p = text::put_decimal(out, at, 0);
    let q = put_list(out, p, &values, kernel::VALUES as u64);
    put_end(out, q)
}

fn plan(d: &State, lent: u64, out: &mut [u8], at: usize) -> usize {
    let mut rows = [0i64; PLAN];
    let lent = PLAN.min(lent as usize);
    let r = kernel::plan(d, &mut rows[..lent]);
    let p = text::put_decimal(out, at, r.number);
    let q = put_list(out, p, &rows, r.count.saturating_mul(ROW));
    put_end(out, q)
}

// Runs a command whose numbers are good; `word` is its last word.
fn run(
    d: &mut State,
    c: Command,
    f: [u64; FIELDS],
    word: &[u8],
    bytes: &mut [u8],
    out: &mut [u8],
    at: usize,
) -> usize {
    match c {
        Command::Unknown => put_bad(out, at),
        Command::Start => told(kernel::start(d, settings_of(f)), out, at),
        Command::Join => told(kernel::join(d, f[0], f[1], f[2]), out, at),
        Command::Leave => told(kernel::leave(d, f[0], f[1]), out, at),
        Command::Lost => told(kernel::lost(d, f[0], f[1]), out, at),
        Command::Back => told(kernel::back(d, f[0], f[1]), out, at),
        Command::Override => told(kernel::set_override(d, f[0], f[1], f[2]), out, at),
        Command::Clear => told(kernel::clear_override(d, f[0]), out, at),
        Command::Move => told(kernel::move_clock(d, f[0]), out, at),
        Command::Ask => ask(d, out, at),
        Command::Plan => plan(d, f[0], out, at),
        Command::Rows => rows(d, f[0], out, at),
        Command::Frame | Command::Request | Command::Response => with_bytes(
            d, c, f, word, bytes, out, at,
        ),
        Command::Conf => conf(f, word, out, at),
        Command::Meas => meas(word, bytes, out, at),
    }
}

// Runs a line of so many words.
fn line(
    d: &mut State,
    s: &[u8],
    ends: &[usize],
    count: usize,
    bytes: &mut [u8],
    out: &mut [u8],
    at: usize,
) -> usize {
    let Line(c, words) = line_of(s, ends);
    let mut f = [0u64; FIELDS];
    if count == 0 || count != words || !read_numbers(s, ends, c, &mut f) {
        return put_bad(out, at);
    }
    let last = span(ends, count - 1);
    match s.get(last.from..last.to) {
        Some(word) => run(d, c, f, word, bytes, out, at),
        None => put_bad(out, at),
    }
}

// Writes the answer to a line behind `at`, and says the position past it. `words` and `room` are the receiver's, `front` is the
// tick counter's, `bytes` is for the bytes of a line: half of the longest line is enough.
pub fn answer(
    d: &mut State,
    words: &mut [u64; RECORD],
    room: &mut [u8],
    front: &mut [u64; FRONT],
    s: &[u8],
    bytes: &mut [u8],
    out: &mut [u8],
    at: usize,
) -> usize {
    if s.is_empty() {
        return at;
    }
    if LONGEST < s.len() {
        return put_bad(out, at);
    }
    let mut ends = [0usize; WORDS];
    let Some(count) = split(s, &mut ends) else {
        return put_bad(out, at);
    };
    if is_scrap(s, &ends) {
        return scrap(words, room, s, &ends, count, bytes, out, at);
    }
    if is_tick(s, &ends) {
        return tick(front, s, &ends, count, out, at);
    }
    if is_rescue(s, &ends) {
        return rescue(s, &ends, count, bytes, out, at);
    }
    line(d, s, &ends, count, bytes, out, at)
}

// The device before the first start: the one that a refused start hands back.
pub fn before_start(d: &mut State)
    ensures { d.new ≡ fresh refused_settings }
{
    let _ = kernel::start(d, settings_of([3, 0, 0, 0, 0, 0, 0, 0, 0, 0, 0, 0]));
}
