// Cells as words that the caller lends, two each.
ghost use Rattle.std.specs.Prelude.{◌≡◌, ◌*◌, [], ◌∷◌};
ghost use Rattle.std.proofs.lemmas.List.Edits.{sets};
ghost use Rattle.measurement_table.specs.Words.{place_of, held_at};

// The places of all rows.
pub const PLACES: usize = 36;

pub const WORDS: usize = 2 * PLACES;

pub type Words = [u64; WORDS];

// The mark 0: nothing; 1: the number `size`; 2: the number -1 - `size`.
#[derive(Clone, Copy)]
pub struct Place {
    pub mark: u64,
    pub size: u64,
}

// The words whole, for the proof of what lies past them; no code is left of it.
fn all(words: &Words) -> Words
    ensures { result ≡ words.now }
{
    *words
}

// The cell at a place, as a mark of 0 to 2 and a number; past the end nothing.
#[tactic(auto, using(crate::proofs::Held::get_one, crate::proofs::Held::get_two, crate::proofs::Held::get_none))]
pub fn place_at(words: &Words, at: usize) -> Place
    ensures { result ≡ place_of (held_at words.now at) }
{
    if at < PLACES {
        let size = words[2 * at + 1];
        return match words[2 * at] {
            1 => Place { mark: 1, size },
            2 => Place { mark: 2, size },
            _ => Place { mark: 0, size: 0 },
        };
    }
    let _a = all(words);
    Place { mark: 0, size: 0 }
}

// Stores a place; past the end nothing is stored.
pub fn put_place(words: &mut Words, at: usize, p: Place)
    ensures { words.new ≡ sets words.old (2 * at) (p.mark ∷ p.size ∷ []) }
{
    if at < PLACES {
        words[2 * at] = p.mark;
        words[2 * at + 1] = p.size;
        return;
    }
    let _a = all(words);
}
