// Whether bytes fit.
ghost use Rattle.std.specs.Prelude.{◌≡◌, ◌+◌, leb};

// Whether `n` bytes fit at `at` into `len`. A sum could pass the largest number, and `checked_add` tells the compiler nothing of
// `at`: then each byte behind this test is tested once more.
pub fn has_room(len: usize, at: usize, n: usize) -> bool
    ensures { result ≡ leb (at + n) len }
{
    at <= len && n <= len - at
}
