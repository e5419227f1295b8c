// Where the frame in hand ends, as its prefix says, which may stand half in the room and half in the scrap.
ghost use Rattle.std.specs.Prelude.{◌≡◌, ◌++◌, ◌<◌, ◌≤◌, length, take, get_or};
ghost use Rattle.wire_prefix.specs.Prefix.{end_of};

use wire_prefix::PREFIX;

// The byte `i` of the room's first `have` bytes with the scrap behind them.
fn byte(have: usize, room: &[u8], scrap: &[u8], i: usize) -> u64
    requires { have ≤ length room.now }
    ensures value { result ≡ get_or (take have room.now ++ scrap.now) i 0 }
    ensures upper_bound { result < 256 }
{
    if i < have {
        wire_bytes::byte_at(room, i)
    } else {
        wire_bytes::byte_at(scrap, i - have)
    }
}

// Where the frame ends that these bytes begin with; 5, the soonest, while its prefix is not whole.
pub fn end_of(have: usize, room: &[u8], scrap: &[u8]) -> usize
    requires { (have < 4) × (4 ≤ length room.now) }
    ensures { result ≡ end_of (take have room.now ++ scrap.now) }
{
    if scrap.len() < PREFIX - have {
        return PREFIX + 1;
    }
    // Byte by byte: put together by `put_bytes`, a prefix that is cut costs a third more.
    let mut payload = 0;
    for i in 0..PREFIX {
        payload = payload * 256 + byte(have, room, scrap, i);
    }
    PREFIX + payload as usize
}
