// The list of records that a caller lends.
ghost use Rattle.std.specs.Prelude.{◌≡◌, ◌<◌};
ghost use Rattle.listing.specs.Records.{record_at};
ghost use Rattle.listing.specs.Listing.{Lists};

use crate::answer::{ListAnswer, answer_for, count_for};
use crate::record::EdgeRecord;
use hintmap::HintMap;

// The record of an edge of a map.
fn record_at(map: HintMap, i: usize) -> EdgeRecord
    requires { i < 96 }
    ensures { result ≡ record_at map i }
{
    EdgeRecord::of(map.edges[i])
}

// Fills a lent list with the records of a drawing's current map; those behind them stand. Of a map
// that is longer than the list nothing is listed.
pub fn list_edges(map: HintMap, list: &mut [EdgeRecord]) -> ListAnswer
    ensures { Lists map list.old result list.new }
{
    let room = list.len();
    let count = count_for(map, room);
    // It goes by places, since the wrong answer `first_edge_for_every_record` needs `record_at`.
    for i in 0..count {
        list[i] = record_at(map, i);
    }
    answer_for(map, room)
}
