// Where the words of a line are. Words are parted by one space, so that two spaces have an empty word between them.
ghost use Rattle.std.specs.Prelude.{◌≡◌, ◌≤◌, eqb, length, get_or, drop, position};
ghost use Rattle.console_words.specs.Spans.{next_of, words_in, ends_after, start_of, span_of, same_bytes, is_word, words_of, place_from};

// The bytes of a word, from `from` up to `to`. No Range, which is not Copy.
#[derive(Clone, Copy)]
pub struct Bounds {
    pub from: usize,
    pub to: usize,
}

fn first(s: &[u8], b: u8) -> Option<usize>
    ensures { result ≡ position (λ x. eqb x b) s.now }
{
    s.iter().position(|x| *x == b)
}

// The position of the first byte b from `from` on, or the end.
pub fn next(s: &[u8], from: usize, b: u8) -> usize
    requires { from ≤ length s.now }
    ensures lower_bound { from ≤ result }
    ensures upper_bound { result ≤ length s.now }
    ensures value { result ≡ next_of b from (drop from s.now) }
{
    first(&s[from..], b).map_or(s.len(), |k| from + k)
}

// Stores where each word ends, as far as they fit, and says how many words there are; none where there are more.
pub fn split(line: &[u8], ends: &mut [usize]) -> Option<usize>
    ensures value { result ≡ words_in line.now (length ends.old) }
    ensures ends_after { ends.new ≡ ends_after line.now ends.old }
{
    let mut at = 0;
    for (n, place) in ends.iter_mut().enumerate() {
        let end = next(line, at, b' ');
        *place = end;
        if line.len() <= end {
            return Some(n + 1);
        }
        at = end + 1;
    }
    None
}

fn end_of(ends: &[usize], k: usize) -> usize
    ensures { result ≡ get_or ends.now k 0 }
{
    ends.get(k).copied().unwrap_or(0)
}

// A word starts past the space behind the one before it.
#[tactic(auto, unfolding(crate::specs::Spans::start_of))]
fn start_of(ends: &[usize], k: usize) -> usize
    ensures { result ≡ start_of ends.now k }
{
    if k == 0 {
        0
    } else {
        end_of(ends, k - 1).saturating_add(1)
    }
}

// Where the k-th word is, by the ends of the words.
#[tactic(auto, unfolding(crate::specs::Spans::span_of))]
pub fn span(ends: &[usize], k: usize) -> Bounds
    ensures { result ≡ span_of ends.now k }
{
    Bounds {
        from: start_of(ends, k),
        to: end_of(ends, k),
    }
}

// Whether two words are the same bytes.
pub fn same(a: &[u8], b: &[u8]) -> bool
    ensures { result ≡ same_bytes a.now b.now }
{
    a == b
}

// Whether word k of a line is this one, by the ends of its words.
#[tactic(auto, unfolding(crate::specs::Spans::is_word))]
pub fn is_word(s: &[u8], ends: &[usize], k: usize, word: &[u8]) -> bool
    ensures { result ≡ is_word s.now ends.now k word.now }
{
    let b = span(ends, k);
    s.get(b.from..b.to).is_some_and(|w| same(w, word))
}

// Which word of a line is the same as `word`, the first being 0.
pub fn place(word: &[u8], line: &[u8]) -> Option<usize>
    ensures { result ≡ place_from 0 word.now (words_of line.now) }
{
    // By hand: the library's `split` does not say what its parts are, and the place in the line moves beside the count.
    let mut k = 0;
    let mut at = 0;
    loop {
        let end = next(line, at, b' ');
        if same(word, &line[at..end]) {
            return Some(k);
        }
        if line.len() <= end {
            return None;
        }
        k += 1;
        at = end + 1;
    }
}
