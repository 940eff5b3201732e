// How a look at a script's edges ended.
ghost use Rattle.std.specs.Prelude.{◌≡◌, Err};
ghost use Rattle.overlay.specs.declared.answer.LookRefusal.TheVariants as Look;
ghost use Rattle.overlay.specs.Seen.{seen_number, seen_place, seen_summary, seen_as};

use listing::{ListAnswer, ListRoom, Summary};
use words::Refusal;

// Why nothing is listed.
#[derive(Clone, Copy, Debug, PartialEq, Eq)]
pub enum LookRefusal {
    // The script is refused.
    Script(Refusal),
    ListRoom,
}

// The summary of what is listed, or a refusal.
pub type SeenAnswer = Result<Summary, LookRefusal>;

impl From<Refusal> for LookRefusal {
    ghost from_gives = { λ refusal look. look ≡ Look.Script refusal };

    fn from(refusal: Refusal) -> LookRefusal {
        LookRefusal::Script(refusal)
    }
}

impl From<ListRoom> for LookRefusal {
    ghost from_gives = { λ _ look. look ≡ Look.ListRoom };

    fn from(_room: ListRoom) -> LookRefusal {
        LookRefusal::ListRoom
    }
}

impl LookRefusal {
    pub fn code(self) -> u32
        ensures { result ≡ seen_number (Err self) }
    {
        match self {
            LookRefusal::Script(refusal) => refusal.code(),
            LookRefusal::ListRoom => 8,
        }
    }

    pub fn place(self) -> usize
        ensures { result ≡ seen_place (Err self) }
    {
        match self {
            LookRefusal::Script(refusal) => refusal.place(),
            LookRefusal::ListRoom => 0,
        }
    }
}

// The number of an answer, 0 for OK.
pub fn code(answer: SeenAnswer) -> u32
    ensures { result ≡ seen_number answer }
{
    match answer {
        Ok(_) => 0,
        Err(refusal) => refusal.code(),
    }
}

// Its place, 0 for OK.
pub fn place(answer: SeenAnswer) -> usize
    ensures { result ≡ seen_place answer }
{
    match answer {
        Ok(_) => 0,
        Err(refusal) => refusal.place(),
    }
}

// Its summary, zeros if nothing is listed.
pub fn summary(answer: SeenAnswer) -> Summary
    ensures { result ≡ seen_summary answer }
{
    match answer {
        Ok(summary) => summary,
        Err(_) => Summary::none(),
    }
}

// The answer of a listing, as one to a script.
pub(crate) fn seen_as(answer: ListAnswer) -> SeenAnswer
    ensures { result ≡ seen_as answer }
{
    Ok(answer?)
}
