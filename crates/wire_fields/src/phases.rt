// A map from phases, A 0, B 1 and C 2, to numbers: read by what is seen of it, and written behind its head.
ghost use Rattle.std.specs.Prelude.{◌≡◌, ◌+◌, ◌&&◌, eqb};
ghost use Rattle.wire_fields.specs.ByPhase.{seen_of, phases_fit, phases_in, currents_in, PhasesTell, PhasesRead, PutsPhases};
ghost use Rattle.wire_fields.specs.Seen.{phases_seen, fields_seen, amounts_seen};

use crate::puts::put_key_head;
use crate::ranges::{INT64, Range, is_number, up_to};
use crate::values::{amount_of, field_of};
use crate::{MAP, NOTHING};
use wire_cbor::KeyHead;
use wire_messages::{CurrentResult, Phases};

// How many pairs a head is of.
fn seen(k: KeyHead) -> u64
    ensures { result ≡ seen_of k }
{
    u64::from(k.major < NOTHING)
}

// How many pairs a map of phases has that are seen, or are to be seen, as a, b and c.
pub fn count_phases(a: KeyHead, b: KeyHead, c: KeyHead) -> u64
    ensures { result ≡ seen_of a + (seen_of b + seen_of c) }
{
    seen(a) + (seen(b) + seen(c))
}

// Whether a map is there with nothing but its phases, which are seen as a, b and c.
fn only_phases(k: KeyHead, a: KeyHead, b: KeyHead, c: KeyHead) -> bool
    ensures { result ≡ (eqb k.major 5 && eqb k.arg (seen_of a + (seen_of b + seen_of c))) }
{
    k.major == MAP && k.arg == count_phases(a, b, c)
}

// Whether a map of phases is there, each a number of a range, or null where that is allowed, or absent.
#[tactic(auto, using(crate::proofs::PhaseLaws::phases_seen_tell))]
pub fn is_phases(k: KeyHead, a: KeyHead, b: KeyHead, c: KeyHead, range: Range, null: bool) -> bool
    ensures phases_tell { PhasesTell k a b c (phases_fit range null) result }
    ensures value { result ≡ phases_seen range null k a b c }
{
    only_phases(k, a, b, c)
        && is_number(a, range, null)
        && is_number(b, range, null)
        && is_number(c, range, null)
}

// A map of phases to signed numbers, or null where that is allowed, as fields; `None` is refusal 3.
pub fn read_phases(k: KeyHead, a: KeyHead, b: KeyHead, c: KeyHead, null: bool) -> Option<Phases>
    ensures phases_read { PhasesRead k a b c (phases_in null) result }
    ensures value { result ≡ fields_seen null k a b c }
{
    let phases = Phases {
        a: field_of(a),
        b: field_of(b),
        c: field_of(c),
    };
    is_phases(k, a, b, c, INT64, null).then_some(phases)
}

// A map of phases to unsigned numbers of at most `most`, as amounts; `None` is refusal 3.
pub fn read_currents(
    k: KeyHead,
    a: KeyHead,
    b: KeyHead,
    c: KeyHead,
    most: u64,
) -> Option<CurrentResult>
    ensures phases_read { PhasesRead k a b c (currents_in most) result }
    ensures value { result ≡ amounts_seen most k a b c }
{
    let currents = CurrentResult {
        a: amount_of(a),
        b: amount_of(b),
        c: amount_of(c),
    };
    is_phases(k, a, b, c, up_to(most), false).then_some(currents)
}

// The pairs of a map of phases, which are to be seen as a, b and c; its head stands before them, with their count.
pub fn put_phases(out: &mut [u8], at: usize, a: KeyHead, b: KeyHead, c: KeyHead) -> usize
    ensures { PutsPhases out.old at a b c out.new result }
{
    let x = put_key_head(out, at, 0, a);
    let y = put_key_head(out, x, 1, b);
    put_key_head(out, y, 2, c)
}
