// The same into a list of twelve records, all of them alike, that `lend_list` lends.
ghost use Rattle.std.specs.Prelude.{◌+◌, ◌*◌, ◌≤◌, length};

use crate::judging::{commands, same_summary};
use crate::lent::{LENT_RECORDS, Lent, lend_list};
use crate::row;
use listing::{EdgeRecord, code, kind_number, list_summary};
use script::{check_script, map_after};
use stems::Kind;
use test_tables::Difference;
use words::{natural, number, word};

const RECORD_WORDS: usize = 6;

// The words of the whole list.
pub(crate) const LENT_WORDS: usize = RECORD_WORDS * LENT_RECORDS;

// A record as it is lent: its heights and its scale are those of the case.
const LENT_STEM: u8 = 77;

// Lists the edges of a script, which no case of these refuses.
pub(crate) fn judged_records(
    head: &[u8],
    script: &[u8],
    lent: &[u8],
    stored: &[u8],
) -> Option<Difference>
    requires { (40 ≤ length head.now) × ((12 ≤ length lent.now) × (288 ≤ length stored.now)) }
{
    if check_script(script).is_err() {
        return Some(Difference::Answer);
    }
    let fill = EdgeRecord {
        height: number(lent, 0),
        device: number(lent, 1),
        scale: number(lent, 2),
        kind: Kind::GhostTop,
        stem: LENT_STEM,
        locked: true,
    };
    compared_records(
        head,
        stored,
        lend_list(map_after(script, commands(head)), fill),
    )
}

fn compared_records(head: &[u8], stored: &[u8], left: Lent) -> Option<Difference>
    requires { (40 ≤ length head.now) × (288 ≤ length stored.now) }
{
    let answer = left.answer;
    if code(answer) as usize != natural(head, row::NUMBER)
        || !same_summary(head, list_summary(answer))
    {
        return Some(Difference::Answer);
    }
    for (i, record) in left.records.iter().enumerate() {
        let at = RECORD_WORDS * i;
        if !same_record(*record, stored, at) {
            return Some(Difference::Word(at));
        }
    }
    None
}

// Whether a record is the one that is stored from a word on.
fn same_record(record: EdgeRecord, stored: &[u8], at: usize) -> bool
    requires { (at ≤ 66) × (4 * (at + 6) ≤ length stored.now) }
{
    record.height == number(stored, at)
        && record.device == number(stored, at + 1)
        && record.scale == number(stored, at + 2)
        && kind_number(record.kind) == word(stored, at + 3)
        && record.stem as usize == natural(stored, at + 4)
        && record.locked as usize == natural(stored, at + 5)
}
