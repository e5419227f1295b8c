// A board that has only a tick counter.
ghost use Rattle.std.specs.Prelude.{◌≡◌};
ghost use Rattle.ticks.specs.Words.{reading_in, words_left};

use ticks::FRONT;

// Of the tick the low 32 bits count.
pub fn cekarum_interface_2_tick(front: &mut [u64; FRONT], tick: u64, seconds: &mut i64) -> u64
    ensures value { result ≡ (reading_in front.old tick).number }
    ensures front_after { front.new ≡ words_left front.old tick }
    ensures seconds_after { seconds.new ≡ (reading_in front.old tick).seconds }
{
    let told = ticks::read_words(front, tick);
    *seconds = told.seconds;
    told.number
}
