// The calls on a device without a frame, the plan among them, and the conformance report.
ghost use Rattle.std.specs.Prelude.{◌≡◌, true, false, length};
ghost use Rattle.kernel.specs.Door.{start_number, start_after, join_number, join_after, leave_number, leave_after, link_number, link_after};
ghost use Rattle.kernel.specs.Door.{override_number, override_after, clear_number, clear_after, move_number, move_after};
ghost use Rattle.kernel.specs.Door.{ask_answer, plan_answer, plan_slice, plain_answer, plain_slice, report_of, pairs_after};
ghost use Rattle.capi.specs.Words.{settings_of, inputs_of};

use crate::words::{INPUTS, SETTINGS, inputs_of, settings_of};
use kernel::{Row, State, VALUES, number_in};

pub fn cekarum_interface_2_start(device: &mut State, settings: &[u64; SETTINGS]) -> u64
    ensures value { result ≡ start_number (settings_of settings.now) }
    ensures device_after { device.new ≡ start_after (settings_of settings.now) }
{
    number_in(kernel::start(device, settings_of(*settings)))
}

pub fn cekarum_interface_2_join(device: &mut State, zone: u64, rank: u64, time: u64) -> u64
    ensures value { result ≡ join_number device.old zone rank time }
    ensures device_after { device.new ≡ join_after device.old zone rank time }
{
    number_in(kernel::join(device, zone, rank, time))
}

pub fn cekarum_interface_2_leave(device: &mut State, zone: u64, time: u64) -> u64
    ensures value { result ≡ leave_number device.old zone time }
    ensures device_after { device.new ≡ leave_after device.old zone time }
{
    number_in(kernel::leave(device, zone, time))
}

pub fn cekarum_interface_2_lost(device: &mut State, zone: u64, time: u64) -> u64
    ensures value { result ≡ link_number device.old zone false time }
    ensures device_after { device.new ≡ link_after device.old zone false time }
{
    number_in(kernel::lost(device, zone, time))
}

pub fn cekarum_interface_2_back(device: &mut State, zone: u64, time: u64) -> u64
    ensures value { result ≡ link_number device.old zone true time }
    ensures device_after { device.new ≡ link_after device.old zone true time }
{
    number_in(kernel::back(device, zone, time))
}

pub fn cekarum_interface_2_override(
    device: &mut State,
    reason: u64,
    direction: u64,
    time: u64,
) -> u64
    ensures value { result ≡ override_number device.old reason direction time }
    ensures device_after { device.new ≡ override_after device.old reason direction time }
{
    number_in(kernel::set_override(device, reason, direction, time))
}

pub fn cekarum_interface_2_clear(device: &mut State, time: u64) -> u64
    ensures value { result ≡ clear_number device.old time }
    ensures device_after { device.new ≡ clear_after device.old time }
{
    number_in(kernel::clear_override(device, time))
}

pub fn cekarum_interface_2_move(device: &mut State, time: u64) -> u64
    ensures value { result ≡ move_number device.old time }
    ensures device_after { device.new ≡ move_after device.old time }
{
    number_in(kernel::move_clock(device, time))
}

// An ask and the two plans are lent the device unchangeable: they take no time, and nothing moves.
pub fn cekarum_interface_2_ask(device: &State, values: &mut [i64; VALUES])
    ensures { values.new ≡ ask_answer device.now }
{
    *values = kernel::ask(device);
}

pub fn cekarum_interface_2_plan(device: &State, rows: &mut [i64], count: &mut u64) -> u64
    ensures value { result ≡ (plan_answer device.now (length rows.old)).number }
    ensures rows_after { rows.new ≡ plan_slice device.now rows.old }
    ensures count_after { count.new ≡ (plan_answer device.now (length rows.old)).count }
{
    let planned = kernel::plan(device, rows);
    *count = planned.count;
    planned.number
}

pub fn cekarum_interface_2_plain_plan(device: &State, rows: &mut [Row], count: &mut u64) -> u64
    ensures value { result ≡ (plain_answer device.now (length rows.old)).number }
    ensures rows_after { rows.new ≡ plain_slice device.now rows.old }
    ensures count_after { count.new ≡ (plain_answer device.now (length rows.old)).count }
{
    let planned = kernel::plain_plan(device, rows);
    *count = planned.count as u64;
    planned.number
}

pub fn cekarum_interface_2_report(
    inputs: &[u64; INPUTS],
    attributes: &[u16],
    pairs: &mut [u64],
    count: &mut u64,
) -> u64
    ensures value { result ≡ (report_of (inputs_of inputs.now) attributes.now (length pairs.old)).number }
    ensures pairs_after { pairs.new ≡ pairs_after (inputs_of inputs.now) attributes.now pairs.old }
    ensures count_after { count.new ≡ (report_of (inputs_of inputs.now) attributes.now (length pairs.old)).count }
{
    let reported = kernel::report(inputs_of(*inputs), attributes, pairs);
    *count = reported.count;
    reported.number
}
