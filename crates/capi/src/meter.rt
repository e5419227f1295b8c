// What the box measures: payloads read and written, and the flows.
ghost use Rattle.std.specs.Prelude.{◌≡◌, length};
ghost use Rattle.measurement_table.specs.Payload.{read_number, read_after};
ghost use Rattle.measurement.specs.Flow.{ac_active_power, ac_active_power_per_phase, dc_power};
ghost use Rattle.capi.specs.Meter.{measurement_written, measurement_left, flow_in};

use crate::words::hand_out;
use measurement::{Words, flow_number, number_in};

pub fn cekarum_interface_2_read_measurement(payload: &[u8], words: &mut Words) -> u64
    ensures value { result ≡ read_number payload.now }
    ensures words_after { words.new ≡ read_after payload.now words.old }
{
    number_in(measurement::read_measurement(payload, words))
}

#[tactic(auto, unfolding(crate::specs::Meter::measurement_written, crate::specs::Meter::measurement_left))]
pub fn cekarum_interface_2_write_measurement(
    words: &Words,
    out: &mut [u8],
    written: &mut u64,
) -> u64
    ensures value { result ≡ (measurement_written words.now (length out.old)).number }
    ensures out_after { out.new ≡ measurement_left words.now out.old }
    ensures written_after { written.new ≡ (measurement_written words.now (length out.old)).length }
{
    hand_out(measurement::write_measurement(words, out), written)
}

pub fn cekarum_interface_2_power_flow(words: &Words) -> u64
    ensures { result ≡ flow_in words.now ac_active_power 0 }
{
    flow_number(measurement::power_flow(words))
}

pub fn cekarum_interface_2_dc_flow(words: &Words) -> u64
    ensures { result ≡ flow_in words.now dc_power 0 }
{
    flow_number(measurement::dc_flow(words))
}

pub fn cekarum_interface_2_phase_flow(words: &Words, phase: u64) -> u64
    ensures { result ≡ flow_in words.now ac_active_power_per_phase phase }
{
    flow_number(measurement::phase_flow(words, phase as usize))
}
