// A frame's prefix: four bytes of length, most significant first, and what lengths there are.
#![tactic(auto)]

ghost use Rattle.std.specs.Prelude.{◌≡◌};
ghost use Rattle.wire_prefix.specs.Prefix.{framed, bad_end};

// How many bytes a prefix, a payload and a frame have at most.
pub const PREFIX: usize = 4;

pub const PAYLOAD: usize = 2048;

pub const FRAME: usize = PREFIX + PAYLOAD;

// Whether the prefix says how many bytes follow it, and they are 1 to 2,048.
#[tactic(auto, unfolding(crate::specs::Prefix::framed))]
pub fn is_framed(frame: &[u8]) -> bool
    ensures { result ≡ framed frame.now }
{
    if frame.len() <= PREFIX {
        return false;
    }
    let n = frame.len() - PREFIX;
    n <= PAYLOAD && wire_bytes::get_u32(frame, 0) == n as u64
}

// Whether no frame ends there: its payload would have no byte, or more than 2,048.
#[tactic(auto, unfolding(crate::specs::Prefix::bad_end))]
pub fn is_bad_end(end: usize) -> bool
    ensures { result ≡ bad_end end }
{
    end <= PREFIX || FRAME < end
}
