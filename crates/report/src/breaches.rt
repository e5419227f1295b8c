// The pairs that can stand in a report, in its order: counted, then written, where their rule is broken.
ghost use Rattle.std.specs.Prelude.{◌≡◌, ◌∷◌, [], ◌+◌, ◌≤◌, ◌<◌, length, get_or};
ghost use Rattle.std.proofs.lemmas.List.Edits.{sets};
ghost use Rattle.report_tables.specs.Endpoints.{types};
ghost use Rattle.report_tables.specs.Attributes.{row_count, rows, no_row};
ghost use Rattle.report.specs.Sizes.{pair_count};
ghost use Rattle.report.specs.Lists.{flagged, front};
ghost use Rattle.report.specs.Rules.{lacks_attribute, broken, candidates, no_pair, broken_in};
ghost use Rattle.report.specs.Report.{flat};

use crate::Inputs;
use crate::attributes::{flag, meets};
use crate::bit_rules::broken_bit;
use crate::sizes::{ATTRIBUTE_GROUP, BIT_GROUPS};
use report_tables::{BITS, ROWS, Row, row_at};

// Both are numbers, since the report writes them out for C.
#[derive(Clone, Copy)]
pub struct Pair {
    pub group: u64,
    pub number: u64,
}

// Each bit in each of its groups, then the rows of the table.
const BIT_PAIRS: usize = BIT_GROUPS * BITS;

const CANDIDATES: usize = BIT_PAIRS + ROWS;

// The endpoint type to which group 6 does not apply.
const DEVICE_ROOT: u64 = 0;

// The k-th pair that can stand in a report.
fn candidate(k: usize) -> Pair
    requires { k < pair_count }
    ensures { result ≡ get_or candidates k no_pair }
{
    if k < BIT_PAIRS {
        return Pair {
            group: (k / BITS) as u64 + 1,
            number: (k % BITS) as u64,
        };
    }
    let r = row_at(k - BIT_PAIRS);
    Pair {
        group: ATTRIBUTE_GROUP,
        number: r.0 as u64,
    }
}

// Group 6: whether the attribute of a row is mandatory and not listed.
#[tactic(auto, using(crate::proofs::Tables::row_condition), unfolding(crate::specs::Rules::lacks_attribute, crate::specs::Attributes::mandatory))]
fn lacks_attribute(i: Inputs, listed: &[bool], k: usize) -> bool
    requires { k < row_count }
    ensures { result ≡ lacks_attribute i (flagged listed.now) (get_or rows k no_row).0 }
{
    let Row(number, condition) = row_at(k);
    i.endpoint != DEVICE_ROOT && meets(i, condition) && !flag(listed, usize::from(number))
}

// Whether the rule of the k-th pair is broken.
fn is_broken(i: Inputs, listed: &[bool], k: usize) -> bool
    requires { (i.endpoint < types) × (k < pair_count) }
    ensures { result ≡ broken i (flagged listed.now) (get_or candidates k no_pair) }
{
    if k < BIT_PAIRS {
        return broken_bit(i, k / BITS, (k % BITS) as u64);
    }
    lacks_attribute(i, listed, k - BIT_PAIRS)
}

// How many pairs the report has.
pub fn count(i: Inputs, listed: &[bool]) -> usize
    requires { i.endpoint < types }
    ensures { result ≡ length (broken_in i (flagged listed.now) candidates) }
{
    let mut n: usize = 0;
    for k in 0..CANDIDATES {
        if is_broken(i, listed, k) {
            n += 1;
        }
    }
    n
}

fn put(pairs: &mut [u64], at: usize, p: Pair)
    requires { at + 1 < length pairs.old }
    ensures { pairs.new ≡ sets pairs.old at (p.group ∷ p.number ∷ []) }
{
    pairs[at] = p.group;
    pairs[at + 1] = p.number;
}

// The report's pairs, from the front of the buffer, which has the room.
pub fn write(i: Inputs, listed: &[bool], pairs: &mut [u64])
    requires endpoint_lt_types { i.endpoint < types }
    requires candidates_in_bounds { length (flat (broken_in i (flagged listed.now) candidates)) ≤ length pairs.old }
    ensures { pairs.new ≡ front (flat (broken_in i (flagged listed.now) candidates)) pairs.old }
{
    let mut at: usize = 0;
    for k in 0..CANDIDATES {
        if is_broken(i, listed, k) {
            put(pairs, at, candidate(k));
            at += 2;
        }
    }
}
