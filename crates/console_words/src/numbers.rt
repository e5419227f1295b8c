// A decimal number: any count of digits, with or without a minus sign.
ghost use Rattle.std.specs.Prelude.{◌≡◌, ◌+◌, ◌*◌, ◌%◌};
ghost use Rattle.console_words.specs.Numbers.{at_most_largest, digits_of, negated, number_of, number_in};

// A number: whether it is below zero, and its value, the largest word for one that 64 bits do not hold, which is out of
// every range.
#[derive(Clone, Copy, PartialEq, Eq)]
pub struct Number {
    pub negative: bool,
    pub value: u64,
}

// The low four bits of a digit are its value.
fn with_digit(value: u64, b: u8) -> u64
    ensures { result ≡ at_most_largest (10 * value + b % 16) }
{
    value.saturating_mul(10).saturating_add(u64::from(b % 16))
}

// The number that digits say, at least one.
fn digits(word: &[u8]) -> Option<Number>
    ensures { result ≡ digits_of word.now }
{
    if word.is_empty() {
        return None;
    }
    let mut value = 0;
    for b in word {
        if !b.is_ascii_digit() {
            return None;
        }
        value = with_digit(value, *b);
    }
    Some(Number {
        negative: false,
        value,
    })
}

// Below zero every number is out of every range, and is the largest word.
#[tactic(auto, unfolding(crate::specs::Numbers::negated))]
fn negate(n: Number) -> Number
    ensures { result ≡ negated n }
{
    if n.value == 0 {
        return n;
    }
    Number {
        negative: true,
        value: u64::MAX,
    }
}

// The number that a whole word says; none where it says no number.
#[tactic(auto, unfolding(crate::specs::Numbers::number_of))]
pub fn read_number(word: &[u8]) -> Option<Number>
    ensures { result ≡ number_of word.now }
{
    match word {
        [b'-', rest @ ..] => digits(rest).map(negate),
        _ => digits(word),
    }
}

// The number of a word by its bounds; none where they are past the line.
#[tactic(auto, unfolding(crate::specs::Numbers::number_in))]
pub fn number_in(line: &[u8], from: usize, to: usize) -> Option<Number>
    ensures { result ≡ number_in line.now from to }
{
    read_number(line.get(from..to)?)
}
