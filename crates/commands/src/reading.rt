// Reading one command, from a script's bytes or from words that are given as a list.
ghost use Rattle.std.specs.Prelude.{◌≡◌, ◌+◌, ◌*◌, ◌≤◌, ◌<◌, length};
ghost use Rattle.words.specs.Words.{raw_at, given_word, number_at};
ghost use Rattle.commands.specs.Commands.{operands_of, point_at, command_of, read_at, word_by, count_by};

use fixed::{Fixed, bits_of, signed};
use pen::{Path, Point};
use words::raw;

// A command that writes nothing: what it asks of the hints. A script with a bad one is refused
// before it is run.
#[derive(Clone, Copy)]
pub enum Marking {
    Bad,
    Stem(Fixed, Fixed),
    Mask { start: u32, len: u32 },
    Counter { start: u32, len: u32 },
    Clear,
    Close,
}

#[derive(Clone, Copy)]
pub enum Command {
    Mark(Marking),
    Draw(Path),
}

// What command words are read from: the part of a script that starts at the first of them, or a list.
// One reader asks which of the two it has. A reader for each, of one trait, is slower.
#[derive(Clone, Copy)]
pub enum Words<'a> {
    Script(&'a [u8]),
    Given(&'a [i32]),
}

// A command, and the word behind its operands.
#[derive(Clone, Copy)]
pub struct Read {
    pub command: Command,
    pub next: usize,
}

// How many operands a kind has; 0 for what is no kind.
#[tactic(auto, unfolding(crate::specs::Commands::operands_of))]
pub fn operands(kind: usize) -> usize
    ensures { (result ≡ operands_of kind) × (result ≤ 6) }
{
    match kind {
        1 => 2,
        2 => 2,
        3 => 2,
        5 => 2,
        6 => 2,
        7 => 6,
        _ => 0,
    }
}

// A word as a natural below 2^32.
fn word_by(words: Words, i: usize) -> u32
    requires { i < count_by words }
    ensures { result ≡ word_by words.entry i }
{
    match words {
        Words::Script(part) => raw(part, i),
        Words::Given(list) => bits_of(list[i]),
    }
}

// A word as a number in 16.16.
fn number_by(words: Words, i: usize) -> Fixed
    requires { i < count_by words }
    ensures { result ≡ number_at (word_by words.entry) i }
{
    let bits = signed(word_by(words, i));
    Fixed { bits }
}

fn point_by(words: Words, at: usize) -> Point
    requires { at + 1 < count_by words }
    ensures { result ≡ point_at (word_by words.entry) at }
{
    let x = number_by(words, at);
    let y = number_by(words, at + 1);
    Point { x, y }
}

// The command of a kind at word `at`, all of whose operands are there. A kind is a number of 01.
#[tactic(auto, unfolding(crate::specs::Commands::operands_of, crate::specs::Commands::command_of))]
fn command_by(words: Words, at: usize, kind: usize) -> Command
    requires { at + operands_of kind < count_by words }
    ensures { result ≡ command_of (word_by words.entry) at kind }
{
    let first = at + 1;
    let second = at + 2;
    match kind {
        1 => {
            let min = number_by(words, first);
            let max = number_by(words, second);
            Command::Mark(Marking::Stem(min, max))
        }
        2 => {
            let start = word_by(words, first);
            let len = word_by(words, second);
            Command::Mark(Marking::Mask { start, len })
        }
        3 => {
            let start = word_by(words, first);
            let len = word_by(words, second);
            Command::Mark(Marking::Counter { start, len })
        }
        4 => Command::Mark(Marking::Clear),
        5 => Command::Draw(Path::Move(point_by(words, first))),
        6 => Command::Draw(Path::Line(point_by(words, first))),
        7 => {
            let c1 = point_by(words, first);
            let c2 = point_by(words, at + 3);
            let to = point_by(words, at + 5);
            Command::Draw(Path::Curve(c1, c2, to))
        }
        8 => Command::Mark(Marking::Close),
        9 => Command::Draw(Path::Finish),
        _ => Command::Mark(Marking::Bad),
    }
}

// The command at word `at` of the first `n`, which are the command words.
#[tactic(auto, unfolding(crate::specs::Commands::read_at))]
pub fn read_by(words: Words, n: usize, at: usize) -> Read
    requires { (n ≤ count_by words) × (at < n) }
    ensures { result ≡ read_at (word_by words.entry) n at }
{
    let kind = word_by(words, at) as usize;
    let next = at + 1 + operands(kind);
    if n < next {
        let command = Command::Mark(Marking::Bad);
        return Read { command, next };
    }
    let command = command_by(words, at, kind);
    Read { command, next }
}

// The command at word `at` of a script's part, whose first `n` words are the command words.
pub fn read_command(part: &[u8], n: usize, at: usize) -> Read
    requires { (4 * n ≤ length part.now) × (at < n) }
    ensures { result ≡ read_at (raw_at part.now) n at }
{
    read_by(Words::Script(part), n, at)
}

// The command at word `at` of some words, all of which are command words.
pub fn read_given(words: &[i32], at: usize) -> Read
    requires { at < length words.now }
    ensures { result ≡ read_at (given_word words.now) (length words.now) at }
{
    read_by(Words::Given(words), words.len(), at)
}
