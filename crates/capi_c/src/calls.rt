// The calls on a device without a frame, the plan among them, and the conformance report.
ghost use Rattle.std.specs.Prelude.{◌≡◌, true, false, length};
ghost use Rattle.kernel.specs.Door.{start_number, start_after, join_number, join_after, leave_number, leave_after, link_number, link_after};
ghost use Rattle.kernel.specs.Door.{override_number, override_after, clear_number, clear_after, move_number, move_after};
ghost use Rattle.kernel.specs.Door.{ask_answer, plan_answer, plan_slice, plain_answer, plain_slice, report_of, pairs_after};
ghost use Rattle.capi.specs.Words.{settings_of, inputs_of};

use capi::{INPUTS, SETTINGS};
use kernel::{Row, State, VALUES};

#[unsafe(no_mangle)]
pub extern "C" fn cekarum_interface_2_start(device: &mut State, settings: &[u64; SETTINGS]) -> u64
    ensures value { result ≡ start_number (settings_of settings.now) }
    ensures device_after { device.new ≡ start_after (settings_of settings.now) }
{
    capi::cekarum_interface_2_start(device, settings)
}

#[unsafe(no_mangle)]
pub extern "C" fn cekarum_interface_2_join(
    device: &mut State,
    zone: u64,
    rank: u64,
    time: u64,
) -> u64
    ensures value { result ≡ join_number device.old zone rank time }
    ensures device_after { device.new ≡ join_after device.old zone rank time }
{
    capi::cekarum_interface_2_join(device, zone, rank, time)
}

#[unsafe(no_mangle)]
pub extern "C" fn cekarum_interface_2_leave(device: &mut State, zone: u64, time: u64) -> u64
    ensures value { result ≡ leave_number device.old zone time }
    ensures device_after { device.new ≡ leave_after device.old zone time }
{
    capi::cekarum_interface_2_leave(device, zone, time)
}

#[unsafe(no_mangle)]
pub extern "C" fn cekarum_interface_2_lost(device: &mut State, zone: u64, time: u64) -> u64
    ensures value { result ≡ link_number device.old zone false time }
    ensures device_after { device.new ≡ link_after device.old zone false time }
{
    capi::cekarum_interface_2_lost(device, zone, time)
}

#[unsafe(no_mangle)]
pub extern "C" fn cekarum_interface_2_back(device: &mut State, zone: u64, time: u64) -> u64
    ensures value { result ≡ link_number device.old zone true time }
    ensures device_after { device.new ≡ link_after device.old zone true time }
{
    capi::cekarum_interface_2_back(device, zone, time)
}

#[unsafe(no_mangle)]
pub extern "C" fn cekarum_interface_2_override(
    device: &mut State,
    reason: u64,
    direction: u64,
    time: u64,
) -> u64
    ensures value { result ≡ override_number device.old reason direction time }
    ensures device_after { device.new ≡ override_after device.old reason direction time }
{
    capi::cekarum_interface_2_override(device, reason, direction, time)
}

#[unsafe(no_mangle)]
pub extern "C" fn cekarum_interface_2_clear(device: &mut State, time: u64) -> u64
    ensures value { result ≡ clear_number device.old time }
    ensures device_after { device.new ≡ clear_after device.old time }
{
    capi::cekarum_interface_2_clear(device, time)
}

#[unsafe(no_mangle)]
pub extern "C" fn cekarum_interface_2_move(device: &mut State, time: u64) -> u64
    ensures value { result ≡ move_number device.old time }
    ensures device_after { device.new ≡ move_after device.old time }
{
    capi::cekarum_interface_2_move(device, time)
}

// An ask and the two plans are lent the device unchangeable: they take no time, and nothing moves.
#[unsafe(no_mangle)]
pub extern "C" fn cekarum_interface_2_ask(device: &State, values: &mut [i64; VALUES])
    ensures { values.new ≡ ask_answer device.now }
{
    capi::cekarum_interface_2_ask(device, values);
}

#[unsafe(no_mangle)]
pub extern "C" fn cekarum_interface_2_plan(device: &State, rows: &mut [i64], count: &mut u64) -> u64
    ensures value { result ≡ (plan_answer device.now (length rows.old)).number }
    ensures rows_after { rows.new ≡ plan_slice device.now rows.old }
    ensures count_after { count.new ≡ (plan_answer device.now (length rows.old)).count }
{
    capi::cekarum_interface_2_plan(device, rows, count)
}

#[unsafe(no_mangle)]
pub extern "C" fn cekarum_interface_2_plain_plan(
    device: &State,
    rows: &mut [Row],
    count: &mut u64,
) -> u64
    ensures value { result ≡ (plain_answer device.now (length rows.old)).number }
    ensures rows_after { rows.new ≡ plain_slice device.now rows.old }
    ensures count_after { count.new ≡ (plain_answer device.now (length rows.old)).count }
{
    capi::cekarum_interface_2_plain_plan(device, rows, count)
}

#[unsafe(no_mangle)]
pub extern "C" fn cekarum_interface_2_report(
    inputs: &[u64; INPUTS],
    attributes: &[u16],
    pairs: &mut [u64],
    count: &mut u64,
) -> u64
    ensures value { result ≡ (report_of (inputs_of inputs.now) attributes.now (length pairs.old)).number }
    ensures pairs_after { pairs.new ≡ pairs_after (inputs_of inputs.now) attributes.now pairs.old }
    ensures count_after { count.new ≡ (report_of (inputs_of inputs.now) attributes.now (length pairs.old)).count }
{
    capi::cekarum_interface_2_report(inputs, attributes, pairs, count)
}
