// The answer to a label run: the words of the result, or a refusal with the glyph and the place that
// it names.
ghost use Rattle.std.specs.Prelude.{◌≡◌, Err};
ghost use Rattle.labels.specs.Answers.{label_number, label_glyph, label_place, label_written, in_glyph};

use std::error::Error;
use std::fmt;
use words::Refusal;

#[derive(Clone, Copy, Debug, PartialEq, Eq)]
pub enum LabelRefusal {
    RunCount,
    BadScale,
    BadBlues,
    // A glyph, and the kind word among its own command words.
    BadCommand(usize, usize),
    BadMask(usize, usize),
    // The first glyph that does not fit, or 0 if the header does not.
    NoRoom(usize),
}

// The words of the result, or why there is none.
pub type LabelAnswer = Result<usize, LabelRefusal>;

impl LabelRefusal {
    pub fn code(self) -> u32
        ensures { result ≡ label_number (Err self) }
    {
        match self {
            Self::RunCount => 9,
            Self::BadScale => 2,
            Self::BadBlues => 3,
            Self::BadCommand(_, _) => 4,
            Self::BadMask(_, _) => 5,
            Self::NoRoom(_) => 6,
        }
    }

    pub fn glyph(self) -> usize
        ensures { result ≡ label_glyph (Err self) }
    {
        match self {
            Self::RunCount | Self::BadScale | Self::BadBlues => 0,
            Self::BadCommand(glyph, _) => glyph,
            Self::BadMask(glyph, _) => glyph,
            Self::NoRoom(glyph) => glyph,
        }
    }

    pub fn place(self) -> usize
        ensures { result ≡ label_place (Err self) }
    {
        match self {
            Self::RunCount | Self::BadScale | Self::BadBlues => 0,
            Self::BadCommand(_, at) => at,
            Self::BadMask(_, at) => at,
            Self::NoRoom(_) => 0,
        }
    }
}

impl fmt::Display for LabelRefusal {
    fn fmt<W: fmt::Write>(&self, f: &mut fmt::Formatter<W>) -> fmt::Result {
        match self {
            Self::RunCount => f.write_str("the lengths are not those of the glyphs"),
            Self::BadScale => f.write_str("the scale is not above 0"),
            Self::BadBlues => f.write_str("more than seven pairs"),
            Self::BadCommand(glyph, at) => write!(f, "no command at word {at} of glyph {glyph}"),
            Self::BadMask(glyph, at) => {
                write!(f, "mask bytes do not fit at word {at} of glyph {glyph}")
            }
            Self::NoRoom(glyph) => write!(f, "no room for glyph {glyph}"),
        }
    }
}

impl Error for LabelRefusal {}

// The number of the answer, 0 for a result.
pub fn code(answer: LabelAnswer) -> u32
    ensures { result ≡ label_number answer }
{
    match answer {
        Ok(_) => 0,
        Err(refusal) => refusal.code(),
    }
}

pub fn glyph(answer: LabelAnswer) -> usize
    ensures { result ≡ label_glyph answer }
{
    match answer {
        Ok(_) => 0,
        Err(refusal) => refusal.glyph(),
    }
}

pub fn place(answer: LabelAnswer) -> usize
    ensures { result ≡ label_place answer }
{
    match answer {
        Ok(_) => 0,
        Err(refusal) => refusal.place(),
    }
}

pub fn written(answer: LabelAnswer) -> usize
    ensures { result ≡ label_written answer }
{
    answer.unwrap_or(0)
}

// A fault among a glyph's commands, as the run answers it.
pub(crate) fn in_glyph(glyph: usize, fault: Refusal) -> LabelAnswer
    ensures { result ≡ in_glyph glyph (Err fault) }
{
    match fault {
        Refusal::BadMask(at) => Err(LabelRefusal::BadMask(glyph, at)),
        _ => Err(LabelRefusal::BadCommand(glyph, fault.place())),
    }
}
