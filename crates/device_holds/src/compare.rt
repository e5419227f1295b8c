// Whether the values of two seconds are the same.
ghost use Rattle.std.specs.Prelude.{◌≡◌};
ghost use Rattle.device_holds.specs.Alike.{alike};

use device_store::VALUES;

pub fn alike(a: [i64; VALUES], b: [i64; VALUES]) -> bool
    ensures { result ≡ alike a b }
{
    a == b
}
