// A yes or a no as a word: a yes is any word but 0; it is given as 1.
ghost use Rattle.std.specs.Prelude.{◌≡◌, not, cond, eqb};

// Whether a word is a yes.
pub fn is_yes(w: u64) -> bool
    ensures { result ≡ not (eqb w 0) }
{
    w != 0
}

// A yes or a no as a word.
pub fn word_of(b: bool) -> u64
    ensures { result ≡ cond b 1 0 }
{
    u64::from(b)
}
