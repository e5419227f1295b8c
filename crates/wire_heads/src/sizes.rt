// How long a head is: its argument in the shortest form.
ghost use Rattle.std.specs.Prelude.{◌≡◌};
ghost use Rattle.wire_heads.specs.Head.{info_of, head_len};

// The additional information of the shortest head of an argument.
#[tactic(auto, unfolding(crate::specs::Head::info_of))]
pub(crate) fn info_of(arg: u64) -> u64
    ensures { result ≡ info_of arg }
{
    match arg {
        0..24 => arg,
        24..256 => 24,
        256..65536 => 25,
        65536..4294967296 => 26,
        _ => 27,
    }
}

// How many bytes the head of an argument has.
#[tactic(auto, unfolding(crate::specs::Head::head_len, crate::specs::Head::info_of, crate::specs::Head::width_of))]
pub fn head_len(arg: u64) -> usize
    ensures { result ≡ head_len arg }
{
    match arg {
        0..24 => 1,
        24..256 => 2,
        256..65536 => 3,
        65536..4294967296 => 5,
        _ => 9,
    }
}
