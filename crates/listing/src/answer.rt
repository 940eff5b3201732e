// How a listing ended.
ghost use Rattle.std.specs.Prelude.{◌≡◌, length};
ghost use Rattle.listing.specs.Listing.{list_number, list_summary, list_answer, records_in};

use crate::summary::{Summary, summarize};
use hintmap::HintMap;
use std::error::Error;
use std::fmt;

// The map has more records than there is room for, and nothing is listed.
#[derive(Clone, Copy, Debug, PartialEq, Eq)]
pub struct ListRoom;

impl fmt::Display for ListRoom {
    fn fmt<W: fmt::Write>(&self, f: &mut fmt::Formatter<W>) -> fmt::Result {
        write!(f, "the map has more records than the list has room for")
    }
}

impl Error for ListRoom {}

// The summary of what is listed.
pub type ListAnswer = Result<Summary, ListRoom>;

// The number of an answer, 0 for OK.
pub fn code(answer: ListAnswer) -> u32
    ensures { result ≡ list_number answer }
{
    match answer {
        Ok(_) => 0,
        Err(ListRoom) => 8,
    }
}

// The summary of what is listed, zeros if nothing is.
pub fn list_summary(answer: ListAnswer) -> Summary
    ensures { result ≡ list_summary answer }
{
    match answer {
        Ok(summary) => summary,
        Err(ListRoom) => Summary::none(),
    }
}

// The answer for a list with room for so many records.
pub(crate) fn answer_for(map: HintMap, room: usize) -> ListAnswer
    ensures { result ≡ list_answer map room }
{
    let summary = summarize(map);
    if room < summary.edges {
        return Err(ListRoom);
    }
    Ok(summary)
}

// How many records are listed then: all of the map's, or none.
pub(crate) fn count_for(map: HintMap, room: usize) -> usize
    ensures { result ≡ length (records_in map room) }
{
    let summary = list_summary(answer_for(map, room));
    summary.edges
}
