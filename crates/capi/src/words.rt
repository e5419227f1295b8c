// Settings and inputs as lent words, one number each, in the order of the header's structs; a writer's answer.
ghost use Rattle.std.specs.Prelude.{◌≡◌};
ghost use Rattle.capi.specs.Words.{settings_of, inputs_of};

use capi_fields::is_yes;
use kernel::{Inputs, Settings, Written};

// Directions, limits, setpoints, minimum, maxima, failsafe limits, failsafe duration, energy manager, phases, currents.
pub const SETTINGS: usize = 12;

// Endpoint type, feature map, phases, directions, limits, current limits, setpoints, process.
pub const INPUTS: usize = 8;

// Settings from their words.
#[tactic(auto, unfolding(crate::specs::Words::settings_of))]
pub fn settings_of(w: [u64; SETTINGS]) -> Settings
    ensures { result ≡ settings_of w }
{
    Settings {
        directions: w[0],
        limits: is_yes(w[1]),
        setpoints: is_yes(w[2]),
        minimum: w[3],
        maxima: [w[4], w[5]],
        failsafe: [w[6], w[7]],
        duration: w[8],
        manager: is_yes(w[9]),
        phases: w[10],
        currents: is_yes(w[11]),
    }
}

// The report's inputs from their words.
#[tactic(auto, unfolding(crate::specs::Words::inputs_of))]
pub fn inputs_of(w: [u64; INPUTS]) -> Inputs
    ensures { result ≡ inputs_of w }
{
    Inputs {
        endpoint: w[0],
        features: w[1],
        phases: w[2],
        directions: w[3],
        limits: is_yes(w[4]),
        currents: is_yes(w[5]),
        setpoints: is_yes(w[6]),
        process: is_yes(w[7]),
    }
}

// What a writer answers, for C: the length goes into a lent number, the number is answered.
pub fn hand_out(w: Written, length: &mut u64) -> u64
    ensures value { result ≡ w.number }
    ensures length_after { length.new ≡ w.length }
{
    *length = w.length as u64;
    w.number
}
