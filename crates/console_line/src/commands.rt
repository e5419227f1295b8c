// A command's name, how many words its line has, and what its numbers are.
ghost use Rattle.std.specs.Prelude.{◌≡◌, true, false, [], MatchOption};
ghost use Rattle.console_line.specs.Fields.{is_known, kinds_of, numbers_good, numbers_stored};
ghost use Rattle.console_line.specs.Commands.{unknown, said, found, line_of};

use crate::fields::Kind::{Any, Flag, Lent, Maximum};
use crate::fields::{Kind, read};
use console_words::{same, span};

#[derive(Clone, Copy, PartialEq, Eq)]
pub enum Command {
    // No command, by a name of its own: the definitions `unknown` and `is_known` speak of it.
    Unknown,
    Start,
    Join,
    Leave,
    Lost,
    Back,
    Override,
    Clear,
    Move,
    Ask,
    Plan,
    Rows,
    Frame,
    Request,
    Response,
    Conf,
    Meas,
}

// What a line's name says: its command, and how many words the line has.
#[derive(Clone, Copy, PartialEq, Eq)]
pub struct Line(pub Command, pub usize);

// How many names there are.
const NAMES: usize = 16;

// What each name says.
const TABLE: [(&[u8], Line); NAMES] = [
    (b"start", Line(Command::Start, 13)),
    (b"join", Line(Command::Join, 4)),
    (b"leave", Line(Command::Leave, 3)),
    (b"lost", Line(Command::Lost, 3)),
    (b"back", Line(Command::Back, 3)),
    (b"override", Line(Command::Override, 4)),
    (b"clear", Line(Command::Clear, 2)),
    (b"move", Line(Command::Move, 2)),
    (b"ask", Line(Command::Ask, 1)),
    (b"plan", Line(Command::Plan, 2)),
    (b"rows", Line(Command::Rows, 2)),
    (b"frame", Line(Command::Frame, 5)),
    (b"request", Line(Command::Request, 2)),
    (b"response", Line(Command::Response, 3)),
    (b"conf", Line(Command::Conf, 11)),
    (b"meas", Line(Command::Meas, 2)),
];

// No line has no words.
fn unknown() -> Line
    ensures { result ≡ unknown }
{
    Line(Command::Unknown, 0)
}

// The first of some rows that has the name.
fn row_of(rows: &[(&[u8], Line)], word: &[u8]) -> Line
    ensures { result ≡ found (said rows.now) word.now }
{
    for (name, line) in rows {
        if same(word, name) {
            return *line;
        }
    }
    unknown()
}

// What the first word of a line says, by the ends of its words.
#[tactic(auto, unfolding(crate::specs::Commands::line_of, console_words::specs::Spans::span_of))]
pub fn line_of(line: &[u8], ends: &[usize]) -> Line
    ensures { result ≡ line_of line.now ends.now }
{
    match line.get(..span(ends, 0).to) {
        Some(name) => row_of(&TABLE, name),
        None => unknown(),
    }
}

// The kinds of a command's numbers.
fn kinds(c: Command) -> Option<&'static [Kind]>
    ensures { MatchOption result ((is_known c ≡ false) × (kinds_of c ≡ [])) (λ kinds. (is_known c ≡ true) × (kinds.now ≡ kinds_of c)) }
{
    match c {
        Command::Unknown => None,
        Command::Start => Some(&[
            Any, Flag, Flag, Any, Maximum, Maximum, Any, Any, Any, Flag, Any, Flag,
        ]),
        Command::Join | Command::Override => Some(&[Any, Any, Any]),
        Command::Leave | Command::Lost | Command::Back => Some(&[Any, Any]),
        Command::Clear | Command::Move | Command::Response => Some(&[Any]),
        Command::Plan | Command::Rows => Some(&[Lent]),
        Command::Frame => Some(&[Any, Any, Lent]),
        Command::Conf => Some(&[Any, Any, Any, Any, Flag, Flag, Flag, Flag, Lent]),
        Command::Ask | Command::Request | Command::Meas => Some(&[]),
    }
}

// Reads the numbers of a command, and says whether every one is good; no line has those of no command.
#[tactic(auto, unfolding(crate::specs::Fields::numbers_good, crate::specs::Fields::numbers_stored, crate::specs::Fields::stored_from))]
pub fn read_numbers(line: &[u8], ends: &[usize], c: Command, fields: &mut [u64]) -> bool
    ensures value { result ≡ numbers_good line.now ends.now c }
    ensures fields_after { fields.new ≡ numbers_stored line.now ends.now c fields.old }
{
    let Some(kinds) = kinds(c) else {
        return false;
    };
    read(line, ends, kinds, fields)
}
