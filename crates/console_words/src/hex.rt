// Bytes in lowercase hex; `-` is none.
ghost use Rattle.std.specs.Prelude.{◌≡◌, true, ◌+◌, ◌*◌, ◌/◌, ◌≤◌, ◌<◌, IfSome, length};
ghost use Rattle.std.specs.List.{list_all};
ghost use Rattle.wire_bytes.specs.Bytes.{put};
ghost use Rattle.console_words.specs.Hex.{is_hex, all_hex, nibble, hex_bytes, is_none, is_pairs, hex_read, hex_after};

#[tactic(auto, unfolding(crate::specs::Hex::is_hex))]
fn is_hex(b: u8) -> bool
    ensures { result ≡ is_hex b }
{
    matches!(b, b'0'..=b'9' | b'a'..=b'f')
}

fn all_hex(word: &[u8]) -> bool
    ensures { result ≡ list_all is_hex word.now }
{
    word.iter().all(|b| is_hex(*b))
}

// The value of a digit.
#[tactic(auto, unfolding(crate::specs::Hex::is_hex, crate::specs::Hex::nibble))]
fn value_of(b: u8) -> u8
    ensures value { is_hex b ≡ true → result ≡ nibble b }
    ensures upper_bound { result < 16 }
{
    match b {
        b'0'..=b'9' => b - b'0',
        b'a'..=b'f' => b - b'a' + 10,
        _ => 0,
    }
}

fn pair(high: u8, low: u8) -> u8
    ensures { is_hex high ≡ true → is_hex low ≡ true → result ≡ 16 * nibble high + nibble low }
{
    16 * value_of(high) + value_of(low)
}

// Stores a byte for each two digits.
fn store(word: &[u8], out: &mut [u8])
    requires digits { all_hex word.now ≡ true }
    requires fits { length word.now / 2 ≤ length out.old }
    ensures { out.new ≡ put out.old 0 (hex_bytes word.now) }
{
    let (pairs, _) = word.as_chunks::<2>();
    for (n, [high, low]) in pairs.iter().enumerate() {
        out[n] = pair(*high, *low);
    }
}

// Whether a word says that there is none.
#[tactic(auto, unfolding(crate::specs::Hex::is_none))]
pub fn is_none(word: &[u8]) -> bool
    ensures { result ≡ is_none word.now }
{
    matches!(word, [b'-'])
}

#[tactic(auto, using(crate::proofs::Pairs::every_hex), unfolding(crate::specs::Hex::is_pairs))]
fn is_pairs(word: &[u8], most: usize) -> bool
    ensures { result ≡ is_pairs word.now most }
{
    !word.is_empty() && word.len() % 2 == 0 && word.len() / 2 <= most && all_hex(word)
}

// The bytes that a word says, from the front of `out`, and how many they are. A bad word changes nothing.
pub fn read_hex(word: &[u8], out: &mut [u8]) -> Option<usize>
    ensures value { result ≡ hex_read word.now (length out.old) }
    ensures within { IfSome result (λ n. n ≤ length out.old) }
    ensures out_after { out.new ≡ hex_after word.now out.old }
{
    if is_none(word) {
        return Some(0);
    }
    if !is_pairs(word, out.len()) {
        return None;
    }
    store(word, out);
    Some(word.len() / 2)
}
