// The same list as words, six a record, for callers that have no structs.
ghost use Rattle.std.specs.Prelude.{◌≡◌, pos, length};
ghost use Rattle.listing.specs.Listing.{kind_number, record_words, ListsWords};

use crate::answer::{ListAnswer, answer_for, count_for};
use crate::record::EdgeRecord;
use hintmap::HintMap;
use stems::Kind;

// Height, device height, scale, kind, stem, locked.
const RECORD_WORDS: usize = 6;

// The number of a kind. No edge of a map is absent.
pub fn kind_number(kind: Kind) -> i32
    ensures { result ≡ pos (kind_number kind) }
{
    match kind {
        Kind::GhostBottom => 0,
        Kind::GhostTop => 1,
        Kind::PairBottom => 2,
        Kind::PairTop => 3,
        Kind::Absent => 4,
    }
}

// The six words of a record.
fn put_record(words: &mut [i32], edge: EdgeRecord)
    requires { length words.old ≡ 6 }
    ensures { words.new ≡ record_words edge }
{
    words.copy_from_slice(&[
        edge.height.bits,
        edge.device.bits,
        edge.scale.bits,
        kind_number(edge.kind),
        edge.stem as i32,
        edge.locked as i32,
    ]);
}

// Fills a lent list of words; those behind the records stand.
#[tactic(auto, using(crate::proofs::Answers::listed_few))]
pub fn list_words(map: HintMap, list: &mut [i32]) -> ListAnswer
    ensures { ListsWords map list.old result list.new }
{
    let room = list.len() / RECORD_WORDS;
    let count = count_for(map, room);
    for (i, edge) in map.edges[..count].iter().enumerate() {
        let at = RECORD_WORDS * i;
        let end = at + RECORD_WORDS;
        put_record(&mut list[at..end], EdgeRecord::of(*edge));
    }
    answer_for(map, room)
}
