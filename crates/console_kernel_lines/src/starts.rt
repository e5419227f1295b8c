// The line `start`: the settings that its numbers say.
ghost use Rattle.std.specs.Prelude.{◌≡◌};
ghost use Rattle.console_kernel_lines.specs.Starts.{settings_in};

use console_line::FIELDS;
use device_store::Settings;

#[tactic(auto, unfolding(crate::specs::Starts::settings_in))]
pub fn settings_of(f: [u64; FIELDS]) -> Settings
    ensures { result ≡ settings_in f }
{
    Settings {
        directions: f[0],
        limits: f[1] == 1,
        setpoints: f[2] == 1,
        minimum: f[3],
        maxima: [f[4], f[5]],
        failsafe: [f[6], f[7]],
        duration: f[8],
        manager: f[9] == 1,
        phases: f[10],
        currents: f[11] == 1,
    }
}
