// Heads, read.
ghost use Rattle.std.specs.Prelude.{◌≡◌, ◌+◌, ◌≤◌, length};
ghost use Rattle.wire_bytes.specs.Bytes.{number_at};
ghost use Rattle.wire_heads.specs.Head.{arg_at, head_at};
ghost use Rattle.wire_heads.specs.Forms.{Width, form_of, held_at};

// A head: its major type, its argument and the position past it.
#[derive(Clone, Copy)]
pub struct Head {
    pub major: u64,
    pub arg: u64,
    pub next: usize,
}

// An argument and the position past it.
#[derive(Clone, Copy)]
pub struct Argument {
    pub value: u64,
    pub next: usize,
}

// Where an argument is said: in the additional information itself; in so many bytes behind it, from the least number on that
// needs them all; or nowhere.
#[derive(Clone, Copy)]
pub enum Form {
    Itself,
    Behind(usize, u64),
    Nowhere,
}

// Where the additional information says the argument, in the order of RFC 8949, section 3.
#[tactic(auto, unfolding(crate::specs::Forms::form_of))]
fn form_of(info: u64) -> Form
    ensures { result ≡ form_of info }
{
    // By an `if`: most items are one byte, and a `match` over all would look at the wider forms first.
    if info < 24 {
        return Form::Itself;
    }
    match info {
        24 => Form::Behind(1, 24),
        25 => Form::Behind(2, 256),
        26 => Form::Behind(4, 65536),
        27 => Form::Behind(8, 4294967296),
        _ => Form::Nowhere,
    }
}

// The number of two bytes that are there.
fn pair(s: &[u8], at: usize) -> u64
    requires { at + 2 ≤ length s.now }
    ensures { result ≡ number_at s.now at 2 }
{
    s[at] as u64 * 256 + s[at + 1] as u64
}

// The number of the bytes that are there, by twos.
fn number(s: &[u8], at: usize, width: usize) -> u64
    requires { (at + width ≤ length s.now) × Width width }
    ensures { result ≡ number_at s.now at width }
{
    if width == 1 {
        return s[at] as u64;
    }
    let mut n = pair(s, at);
    // By hand: with a `for` over the pairs a measurement takes a third longer to read.
    let mut i: usize = 2;
    while i < width {
        n = n * 65536 + pair(s, at + i);
        i += 2;
    }
    n
}

// The argument that `width` bytes at `at` hold, from `least` on.
fn held(s: &[u8], at: usize, width: usize, least: u64) -> Option<Argument>
    requires { (at ≤ length s.now) × Width width }
    ensures { result ≡ held_at s.now at width least }
{
    if s.len() - at < width {
        return None;
    }
    let value = number(s, at, width);
    if value < least {
        return None;
    }
    Some(Argument {
        value,
        next: at + width,
    })
}

// The argument of a head with this additional information, whose further bytes start at `at`.
pub(crate) fn argument_of(s: &[u8], at: usize, info: u64) -> Option<Argument>
    requires { at ≤ length s.now }
    ensures { result ≡ arg_at s.now at info }
{
    match form_of(info) {
        Form::Itself => Some(Argument {
            value: info,
            next: at,
        }),
        Form::Behind(width, least) => held(s, at, width, least),
        Form::Nowhere => None,
    }
}

// The head at `at`.
pub fn read_head(s: &[u8], at: usize) -> Option<Head>
    ensures { result ≡ head_at s.now at }
{
    if s.len() <= at {
        return None;
    }
    let first = s[at] as u64;
    let major = first / 32;
    let info = first % 32;
    if major <= 5 {
        let arg = argument_of(s, at + 1, info)?;
        return Some(Head {
            major,
            arg: arg.value,
            next: arg.next,
        });
    }
    match first {
        244..=246 => Some(Head {
            major: 7,
            arg: info,
            next: at + 1,
        }),
        _ => None,
    }
}
