// Frames that come in scraps.
ghost use Rattle.std.specs.Prelude.{◌≡◌};
ghost use Rattle.receiver.specs.Receive.{received};
ghost use Rattle.receiver.specs.Words.{record_in, words_left, counts_left};

use receiver::{COUNTS, RECORD};

pub fn cekarum_interface_2_receive(
    words: &mut [u64; RECORD],
    room: &mut [u8],
    scrap: &[u8],
    counts: &mut [u64; COUNTS],
) -> u64
    ensures value { result ≡ (received (record_in words.old) room.old scrap.now).answer.number }
    ensures words_after { words.new ≡ words_left words.old room.old scrap.now }
    ensures room_after { room.new ≡ (received (record_in words.old) room.old scrap.now).room }
    ensures counts_after { counts.new ≡ counts_left counts.old words.old room.old scrap.now }
{
    receiver::receive_words(words, room, scrap, counts)
}
