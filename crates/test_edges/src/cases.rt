// One case.
ghost use Rattle.std.specs.Prelude.{◌+◌, ◌*◌, ◌/◌, ◌≤◌, length};
ghost use Rattle.test_edges.specs.Cases.{Whole};

use crate::judging::judged;
use crate::records::{LENT_WORDS, judged_records};
use crate::row;
use std::io;
use std::io::Read;
use test_tables::{Difference, read_bytes};
use words::{natural, read_words};

// There is place for more bytes than a script may have, and for more records than a map has.
const HELD_BYTES: usize = 65600;

const HELD_LIST: usize = 600;

// The bytes of all parts of a case.
const HELD_CASE: usize = HELD_BYTES + 8 * HELD_LIST;

// What first differs in the next case, by a run of it; none where the file ends within the case, or
// where the case is too large.
pub(crate) fn case<R: Read, F: Fn(&[u8], &[u8], usize, usize) -> Option<Option<Difference>>>(
    file: &mut R,
    run: F,
) -> io::Result<Option<Option<Difference>>>
    requires { (head : _) (case : _) (size : _) (words : _) → Whole head.now case.now size words →
        F.pre run head case size words }
{
    let mut head = [0u8; row::HEAD];
    if !read_bytes(file, &mut head)? {
        return Ok(None);
    }
    let mut case = [0u8; HELD_CASE];
    read_sized(file, &head, &mut case, run)
}

// Reads as many bytes as the case has. Its script has so many bytes, and its list so many words.
fn read_sized<R: Read, F: Fn(&[u8], &[u8], usize, usize) -> Option<Option<Difference>>>(
    file: &mut R,
    head: &[u8],
    case: &mut [u8],
    run: F,
) -> io::Result<Option<Option<Difference>>>
    requires head { 40 ≤ length head.now }
    requires runs { (head : _) (case : _) (size : _) (words : _) → Whole head.now case.now size words →
        F.pre run head case size words }
{
    let size = natural(head, row::SCRIPT);
    let words = natural(head, row::LIST);
    let end = 4 * ((size + 3) / 4 + 2 * words);
    if HELD_LIST < words || case.len() < end {
        return Ok(None);
    }
    if !read_bytes(file, &mut case[..end])? {
        return Ok(None);
    }
    Ok(run(head, case, size, words))
}

// Lists the edges into records, of which there are always as many.
pub(crate) fn run_records(
    head: &[u8],
    case: &[u8],
    size: usize,
    words: usize,
) -> Option<Option<Difference>>
    requires { (40 ≤ length head.now) ×
        ((words ≤ 600) × (4 * ((size + 3) / 4 + 2 * words) ≤ length case.now)) }
{
    if words != LENT_WORDS {
        return None;
    }
    let lent = 4 * ((size + 3) / 4);
    let after = lent + 4 * LENT_WORDS;
    Some(judged_records(head, &case[0..size], &case[lent..], &case[after..]))
}

// Lends as many words as the case says.
pub(crate) fn run_words(
    head: &[u8],
    case: &[u8],
    size: usize,
    words: usize,
) -> Option<Option<Difference>>
    requires { (40 ≤ length head.now) ×
        ((words ≤ 600) × (4 * ((size + 3) / 4 + 2 * words) ≤ length case.now)) }
{
    let mut list = [0i32; HELD_LIST];
    Some(run_parts(head, case, size, &mut list[..words]))
}

// Lists the edges from the parts of a case, which are the script of so many bytes, the list as it
// is lent, and the list afterwards.
fn run_parts(head: &[u8], case: &[u8], size: usize, list: &mut [i32]) -> Option<Difference>
    requires { (40 ≤ length head.now) × (4 * ((size + 3) / 4 + 2 * length list.old) ≤ length case.now) }
{
    let first = (size + 3) / 4;
    let after = 4 * (first + list.len());
    read_words(case, first, list);
    judged(head, &case[0..size], &case[after..], list)
}
