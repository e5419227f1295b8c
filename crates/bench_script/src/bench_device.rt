// The device that bench scripts run on.
ghost use Rattle.std.specs.Prelude.{◌≡◌};
ghost use Rattle.bench_script.specs.Device.{bench_settings};

use device_store::{MOST, Settings};

// The settings of bench's device.
pub fn bench_settings() -> Settings
    ensures { result ≡ bench_settings }
{
    Settings {
        directions: 2,
        limits: true,
        setpoints: true,
        minimum: 1380000,
        maxima: [43000000, MOST],
        failsafe: [4200000, 0],
        duration: 7200,
        manager: false,
        phases: 3,
        currents: true,
    }
}
