// How many records of each sort a map has.
ghost use Rattle.std.specs.Prelude.{◌≡◌};
ghost use Rattle.listing.specs.Records.{edge_records, records_of, counts, count_of, summary_of, no_summary};

use crate::record::{Counted, EdgeRecord};
use fixed::least;
use hintmap::HintMap;
use stems::MAX_HINTS;

// Edges, pairs by their bottoms, ghosts with the synthetic ones, and locked edges.
#[derive(Clone, Copy, Debug, PartialEq, Eq)]
pub struct Summary {
    pub edges: usize,
    pub pairs: usize,
    pub ghosts: usize,
    pub locked: usize,
}

impl Summary {
    pub fn none() -> Summary
        ensures { result ≡ no_summary }
    {
        Summary {
            edges: 0,
            pairs: 0,
            ghosts: 0,
            locked: 0,
        }
    }
}

// How many edges of a map are counted, whether it is valid or not.
fn count(map: HintMap, what: Counted) -> usize
    ensures { result ≡ count_of (counts what) (edge_records map) }
{
    let len = least(map.len, MAX_HINTS);
    map.edges[..len]
        .iter()
        .filter(|edge| EdgeRecord::of(**edge).counts_as(what))
        .count()
}

// The summary of a map's records, of which an invalid one has none.
#[tactic(auto, using(crate::proofs::Counting::summary_none))]
pub fn summarize(map: HintMap) -> Summary
    ensures { result ≡ summary_of (records_of map) }
{
    if !map.is_valid {
        return Summary::none();
    }
    Summary {
        edges: least(map.len, MAX_HINTS),
        pairs: count(map, Counted::Pairs),
        ghosts: count(map, Counted::Ghosts),
        locked: count(map, Counted::Locked),
    }
}
