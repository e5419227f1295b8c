// Attributes parted by commas; `-` is none.
ghost use Rattle.std.specs.Prelude.{◌≡◌, ◌≤◌, true, false, IfSome, MatchOption, length};
ghost use Rattle.console_words.specs.Lists.{is_attribute, list_read, list_after};

use crate::hex::is_none;
use crate::numbers::{Number, number_in};
use crate::spans::next;

#[tactic(auto, unfolding(crate::specs::Lists::is_attribute))]
fn attribute_of(n: Number) -> Option<u16>
    ensures { MatchOption result (is_attribute n ≡ false) (λ v. (is_attribute n ≡ true) × (v ≡ n.value)) }
{
    u16::try_from(n.value).ok()
}

// The attributes that a word lists, from the front of `out`, and how many they are. One above 65,535 is bad, and so are
// more than fit.
pub fn read_list(word: &[u8], out: &mut [u16]) -> Option<usize>
    ensures value { result ≡ list_read word.now (length out.old) }
    ensures within { IfSome result (λ n. n ≤ length out.old) }
    ensures out_after { out.new ≡ list_after word.now out.old }
{
    if is_none(word) {
        return Some(0);
    }
    let mut at = 0;
    for (n, place) in out.iter_mut().enumerate() {
        let end = next(word, at, b',');
        let number = number_in(word, at, end)?;
        *place = attribute_of(number)?;
        if word.len() <= end {
            return Some(n + 1);
        }
        at = end + 1;
    }
    None
}
