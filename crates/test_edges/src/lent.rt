// A list of records that is lent here: the one function that lends such a list, so that all above it
// goes by value.
ghost use Rattle.std.specs.Prelude.{replicate};
ghost use Rattle.listing.specs.Listing.{Lists};

use hintmap::HintMap;
use listing::{EdgeRecord, ListAnswer, list_edges};

// How many records are lent.
pub(crate) const LENT_RECORDS: usize = 12;

// The answer, and what is left in the list.
#[derive(Clone, Copy)]
pub(crate) struct Lent {
    pub answer: ListAnswer,
    pub records: [EdgeRecord; LENT_RECORDS],
}

// Lends a list in which every record is the same, and gives it back.
pub(crate) fn lend_list(map: HintMap, fill: EdgeRecord) -> Lent
    ensures { Lists map (replicate 12 fill) result.answer result.records }
{
    let mut list = [fill; LENT_RECORDS];
    let answer = list_edges(map, &mut list);
    Lent {
        answer,
        records: list,
    }
}
