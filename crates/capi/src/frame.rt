// A frame applied, and its response.
ghost use Rattle.std.specs.Prelude.{◌≡◌, length};
ghost use Rattle.kernel.specs.Frame.{frame_answer, frame_after, frame_out};

use kernel::State;

pub fn cekarum_interface_2_frame(
    device: &mut State,
    zone: u64,
    time: u64,
    bytes: &[u8],
    out: &mut [u8],
    written: &mut u64,
) -> u64
    ensures value { result ≡ (frame_answer device.old zone time bytes.now (length out.old)).number }
    ensures device_after { device.new ≡ frame_after device.old zone time bytes.now (length out.old) }
    ensures out_after { out.new ≡ frame_out device.old zone time bytes.now out.old }
    ensures written_after { written.new ≡ (frame_answer device.old zone time bytes.now (length out.old)).length }
{
    let framed = kernel::frame(device, zone, time, bytes, out);
    *written = framed.length as u64;
    framed.number
}
