// The writer's answer: the bytes that were written, or a refusal with the place that it names.
ghost use Rattle.std.specs.Prelude.{◌≡◌};
ghost use Rattle.writer.specs.Refusals.{write_number, write_place, written_bytes};

use std::error::Error;
use std::fmt;
use words::layout;

#[derive(Clone, Copy, Debug, PartialEq, Eq)]
pub enum WriteRefusal {
    BadScale,
    BadBlues(usize),
    BadCommand(usize),
    BadMask(usize),
    ScriptRoom,
}

// The bytes of the script, or why there is none.
pub type WriteAnswer = Result<usize, WriteRefusal>;

impl WriteRefusal {
    pub fn code(self) -> u32
        ensures { result ≡ write_number (Err self) }
    {
        match self {
            Self::BadScale => 2,
            Self::BadBlues(_) => 3,
            Self::BadCommand(_) => 4,
            Self::BadMask(_) => 5,
            Self::ScriptRoom => 7,
        }
    }

    // The scale and the counts by their words in a script, the others by the command words given.
    pub fn place(self) -> usize
        ensures { result ≡ write_place (Err self) }
    {
        match self {
            Self::BadScale => layout::SCALE,
            Self::BadBlues(at) | Self::BadCommand(at) | Self::BadMask(at) => at,
            Self::ScriptRoom => 0,
        }
    }
}

impl fmt::Display for WriteRefusal {
    fn fmt<W: fmt::Write>(&self, f: &mut fmt::Formatter<W>) -> fmt::Result {
        match self {
            Self::BadScale => f.write_str("the scale is not above 0"),
            Self::BadBlues(at) => write!(f, "more than seven pairs by word {at}"),
            Self::BadCommand(at) => write!(f, "no command at given word {at}"),
            Self::BadMask(at) => write!(f, "mask bytes do not fit at given word {at}"),
            Self::ScriptRoom => f.write_str("no room for the script"),
        }
    }
}

impl Error for WriteRefusal {}

// The number of the answer, 0 for a script that was written.
pub fn code(answer: WriteAnswer) -> u32
    ensures { result ≡ write_number answer }
{
    match answer {
        Ok(_) => 0,
        Err(refusal) => refusal.code(),
    }
}

pub fn place(answer: WriteAnswer) -> usize
    ensures { result ≡ write_place answer }
{
    match answer {
        Ok(_) => 0,
        Err(refusal) => refusal.place(),
    }
}

pub fn written(answer: WriteAnswer) -> usize
    ensures { result ≡ written_bytes answer }
{
    answer.unwrap_or(0)
}
