// The numbers of a line: the words behind the command's name, each of a kind.
ghost use Rattle.std.specs.Prelude.{◌≡◌, set};
ghost use Rattle.console_line.specs.Fields.{none_in, below_none, maximum_in, is_of, field_in, all_good, stored_from};

use console_words::{Number, is_none, number_in, span};
use device_store::{MOST, VALUE_END};

// No command has more numbers.
pub const FIELDS: usize = 12;

// What a number is: any; a flag; a maximum, which may be none; a count of what is lent, of bytes, numbers or records.
#[derive(Clone, Copy, PartialEq, Eq)]
pub(crate) enum Kind {
    Any,
    Flag,
    Maximum,
    Lent,
}

#[tactic(auto, unfolding(crate::specs::Fields::none_in))]
fn is_none_in(line: &[u8], from: usize, to: usize) -> bool
    ensures { result ≡ none_in line.now from to }
{
    line.get(from..to).is_some_and(|w| is_none(w))
}

// No number that a line says is as large as the word for none.
#[tactic(auto, unfolding(crate::specs::Fields::below_none))]
fn below_none(n: Number) -> Number
    ensures { result ≡ below_none n }
{
    if n.value < VALUE_END {
        return n;
    }
    Number {
        value: VALUE_END,
        ..n
    }
}

// The largest word stands for none, and for no number that a line says.
#[tactic(auto, unfolding(crate::specs::Fields::maximum_in))]
fn maximum(line: &[u8], from: usize, to: usize) -> Option<Number>
    ensures { result ≡ maximum_in line.now from to }
{
    if is_none_in(line, from, to) {
        return Some(Number {
            negative: false,
            value: MOST,
        });
    }
    number_in(line, from, to).map(below_none)
}

// A flag is 0 or 1; what is lent is no negative count.
#[tactic(auto, unfolding(crate::specs::Fields::is_of))]
fn is_of(n: Number, kind: Kind) -> bool
    ensures { result ≡ is_of n kind }
{
    match kind {
        Kind::Flag => n.value < 2,
        Kind::Lent => !n.negative,
        Kind::Any | Kind::Maximum => true,
    }
}

#[tactic(auto, unfolding(crate::specs::Fields::field_in))]
fn field(line: &[u8], from: usize, to: usize, kind: Kind) -> Option<Number>
    ensures { result ≡ field_in line.now from to kind }
{
    match kind {
        Kind::Maximum => maximum(line, from, to),
        _ => number_in(line, from, to).filter(|n| is_of(*n, kind)),
    }
}

fn put(fields: &mut [u64], k: usize, value: u64)
    ensures { fields.new ≡ set fields.old k value }
{
    if k < fields.len() {
        fields[k] = value;
    }
}

// Reads a number for each kind, and says whether every one is good; it stores them up to the first that is not.
pub(crate) fn read(line: &[u8], ends: &[usize], kinds: &[Kind], fields: &mut [u64]) -> bool
    ensures value { result ≡ all_good line.now ends.now 0 kinds.now }
    ensures fields_after { fields.new ≡ stored_from line.now ends.now 0 kinds.now fields.old }
{
    for (k, kind) in kinds.iter().enumerate() {
        let word = span(ends, k + 1);
        let Some(n) = field(line, word.from, word.to, *kind) else {
            return false;
        };
        put(fields, k, n.value);
    }
    true
}
