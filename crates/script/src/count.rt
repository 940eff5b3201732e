// How many records there are in some words.
ghost use Rattle.std.specs.Prelude.{◌≡◌, ◌≤◌, take};
ghost use Rattle.script.specs.Count.{size_of, records_in};

use fixed::least;
use pen::{BARE_RECORD, CURVE_RECORD, POINT_RECORD, Record};

// The words that a record of a kind takes.
#[tactic(auto, unfolding(crate::specs::Count::size_of))]
fn size(kind: i32) -> usize
    ensures { (result ≡ size_of kind) × (result ≤ 7) }
{
    if kind == Record::Move as i32 || kind == Record::Line as i32 {
        return POINT_RECORD;
    }
    if kind == Record::Curve as i32 {
        return CURVE_RECORD;
    }
    BARE_RECORD
}

// The records in the first words of an output.
pub(crate) fn count_records(out: &[i32], words: usize) -> usize
    ensures { result ≡ records_in (take words out.now) }
{
    let end = least(words, out.len());
    let mut count = 0;
    let mut at = 0;
    // The step is the size of the record that is read.
    while at < end {
        at += size(out[at]);
        count += 1;
    }
    count
}
