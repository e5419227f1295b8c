// The call that a record makes, and its run on a device.
ghost use Rattle.std.specs.Prelude.{◌≡◌, ◌+◌, ◌≤◌, length};
ghost use Rattle.bench_script.specs.Runs.{call_of, call_leaves, record_leaves, step_leaves, step_answer};

use bench_records::{Record, read_record};
use kernel::{State, number_in};
use wire_bytes::byte_at;

// The frame's bytes stand beside the call.
#[derive(Clone, Copy)]
pub enum Call {
    Join(u64, u64),
    Leave(u64),
    Lost(u64),
    Back(u64),
    Frame(u64),
    Plan,
    Override(u64, u64),
    Clear,
    Move,
    Ask,
}

// A call's number, and how many rows it wrote.
#[derive(Clone, Copy)]
pub struct Ran {
    pub number: u64,
    pub count: u64,
}

// The answer to a record; `next` is where the next one starts.
#[derive(Clone, Copy)]
pub struct Stepped {
    pub number: u64,
    pub count: u64,
    pub next: usize,
}

#[tactic(auto, unfolding(crate::specs::Runs::call_of))]
fn call_of(kind: u64, zone: u64, a: u64, b: u64) -> Call
    ensures { result ≡ call_of kind zone a b }
{
    match kind {
        bench_records::JOIN => Call::Join(zone, a),
        bench_records::LEAVE => Call::Leave(zone),
        bench_records::LOST => Call::Lost(zone),
        bench_records::BACK => Call::Back(zone),
        bench_records::FRAME => Call::Frame(zone),
        bench_records::PLAN => Call::Plan,
        bench_records::OVERRIDE => Call::Override(a, b),
        bench_records::CLEAR => Call::Clear,
        bench_records::MOVE => Call::Move,
        _ => Call::Ask,
    }
}

fn alone(number: u64) -> Ran
    ensures { result ≡ record { number = number; count = 0 } }
{
    Ran { number, count: 0 }
}

// Runs a call at t. A plan and an ask work at the device's own time and pass t over; an ask's values are not printed.
fn run(d: &mut State, t: u64, c: Call, bytes: &[u8], out: &mut [u8], rows: &mut [i64]) -> Ran
    ensures { record { ran = result; words = d.new; out = out.new; rows = rows.new }
        ≡ call_leaves d.old t bytes.now out.old rows.old c }
{
    match c {
        Call::Join(zone, rank) => alone(number_in(kernel::join(d, zone, rank, t))),
        Call::Leave(zone) => alone(number_in(kernel::leave(d, zone, t))),
        Call::Lost(zone) => alone(number_in(kernel::lost(d, zone, t))),
        Call::Back(zone) => alone(number_in(kernel::back(d, zone, t))),
        Call::Frame(zone) => alone(kernel::frame(d, zone, t, bytes, out).number),
        Call::Plan => {
            let x = kernel::plan(d, rows);
            Ran {
                number: x.number,
                count: x.count,
            }
        }
        Call::Override(reason, direction) => alone(number_in(kernel::set_override(
            d, reason, direction, t,
        ))),
        Call::Clear => alone(number_in(kernel::clear_override(d, t))),
        Call::Move => alone(number_in(kernel::move_clock(d, t))),
        Call::Ask => {
            kernel::ask(d);
            alone(0)
        }
    }
}

// A record that was read, its body within the script.
fn run_record(d: &mut State, s: &[u8], r: Record, out: &mut [u8], rows: &mut [i64]) -> Ran
    requires { r.body + r.length ≤ length s.now }
    ensures { record { ran = result; words = d.new; out = out.new; rows = rows.new }
        ≡ record_leaves d.old s.now out.old rows.old r }
{
    let body = r.body;
    let end = body + r.length;
    let c = call_of(r.kind, r.zone, byte_at(s, body), byte_at(s, body + 1));
    run(d, r.time, c, &s[body..end], out, rows)
}

// Reads the record at `at` and runs it; a bad one has no answer and changes nothing.
pub fn step(d: &mut State, s: &[u8], at: usize, out: &mut [u8], rows: &mut [i64]) -> Option<Stepped>
    ensures value { result ≡ step_answer d.old s.now at out.old rows.old }
    ensures d_after { d.new ≡ (step_leaves d.old s.now at out.old rows.old).words }
    ensures out_after { out.new ≡ (step_leaves d.old s.now at out.old rows.old).out }
    ensures rows_after { rows.new ≡ (step_leaves d.old s.now at out.old rows.old).rows }
{
    let r = read_record(s, at)?;
    let x = run_record(d, s, r, out, rows);
    Some(Stepped {
        number: x.number,
        count: x.count,
        next: r.body + r.length,
    })
}
