// Truths joined.
ghost use Rattle.std.specs.Prelude.{◌≡◌, ◌&&◌};

// All of three.
pub fn all3(a: bool, b: bool, c: bool) -> bool
    ensures { result ≡ (a && (b && c)) }
{
    a && b && c
}
