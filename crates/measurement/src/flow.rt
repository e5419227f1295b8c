// The direction of flow of acActivePower, dcPower and each phase of acActivePowerPerPhase, by the mark: no number is negated.
ghost use Rattle.std.specs.Prelude.{◌≡◌};
ghost use Rattle.measurement_table.specs.Table.{rows};
ghost use Rattle.measurement_table.specs.Words.{held_at, held};
ghost use Rattle.measurement.specs.Flow.{flow_of, flow_number, cell_for, ac_active_power, ac_active_power_per_phase, dc_power};

use measurement_table::{Words, place_at};

// Into the component or out of it, in neither direction, or nothing is there to flow.
#[derive(Clone, Copy)]
pub enum Flow {
    Absent,
    Neither,
    In,
    Out,
}

const PHASES: usize = 3;

// The places of acActivePower, of the first phase of acActivePowerPerPhase, and of dcPower.
const POWER: usize = 0;

const BY_PHASE: usize = 3;

const DC: usize = 25;

fn flow_at(words: &Words, at: usize) -> Flow
    ensures { result ≡ flow_of (held_at words.now at) }
{
    let p = place_at(words, at);
    if p.mark == 1 {
        if p.size == 0 {
            return Flow::Neither;
        }
        return Flow::In;
    }
    if p.mark == 2 {
        return Flow::Out;
    }
    Flow::Absent
}

// Of acActivePower.
pub fn power_flow(words: &Words) -> Flow
    ensures { result ≡ flow_of (cell_for rows (held words.now) ac_active_power 0) }
{
    flow_at(words, POWER)
}

// Of dcPower.
pub fn dc_flow(words: &Words) -> Flow
    ensures { result ≡ flow_of (cell_for rows (held words.now) dc_power 0) }
{
    flow_at(words, DC)
}

// Of a phase of acActivePowerPerPhase; absent where there is no such phase.
pub fn phase_flow(words: &Words, phase: usize) -> Flow
    ensures { result ≡ flow_of (cell_for rows (held words.now) ac_active_power_per_phase phase) }
{
    if phase < PHASES {
        return flow_at(words, BY_PHASE + phase);
    }
    Flow::Absent
}

// Its number in C.
pub fn flow_number(f: Flow) -> u64
    ensures { result ≡ flow_number f }
{
    match f {
        Flow::Absent => 0,
        Flow::Neither => 1,
        Flow::In => 2,
        Flow::Out => 3,
    }
}
