// The answer to a script, with the place that it names.
ghost use Rattle.std.specs.Prelude.{◌≡◌, Err};
ghost use Rattle.words.specs.Answers.{number_of, place_of};

// Why a script is refused.
#[derive(Clone, Copy, Debug, PartialEq, Eq)]
pub enum Refusal {
    BadScript(usize),
    BadScale,
    BadBlues(usize),
    BadCommand(usize),
    BadMask(usize),
    NoRoom(usize),
}

// OK, or a refusal.
pub type Answer = Result<(), Refusal>;

impl Refusal {
    // 01's number.
    pub fn code(self) -> u32
        ensures { result ≡ number_of (Err self) }
    {
        match self {
            Refusal::BadScript(_) => 1,
            Refusal::BadScale => 2,
            Refusal::BadBlues(_) => 3,
            Refusal::BadCommand(_) => 4,
            Refusal::BadMask(_) => 5,
            Refusal::NoRoom(_) => 6,
        }
    }

    // 01's place, a word of the script.
    pub fn place(self) -> usize
        ensures { result ≡ place_of (Err self) }
    {
        match self {
            Refusal::BadScript(at) => at,
            Refusal::BadScale => 1,
            Refusal::BadBlues(at) => at,
            Refusal::BadCommand(at) => at,
            Refusal::BadMask(at) => at,
            Refusal::NoRoom(at) => at,
        }
    }
}

// 01's number of an answer, 0 for OK.
pub fn code(answer: Answer) -> u32
    ensures { result ≡ number_of answer }
{
    match answer {
        Ok(()) => 0,
        Err(refusal) => refusal.code(),
    }
}

// 01's place of an answer, 0 for OK.
pub fn place(answer: Answer) -> usize
    ensures { result ≡ place_of answer }
{
    match answer {
        Ok(()) => 0,
        Err(refusal) => refusal.place(),
    }
}
