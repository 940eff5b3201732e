// One case.
ghost use Rattle.std.specs.Prelude.{◌+◌, ◌*◌, ◌/◌, ◌≤◌, length};

use crate::judging::judged;
use crate::row;
use std::io;
use std::io::Read;
use test_tables::{Difference, read_bytes};
use words::{natural, read_words};

// There is place for the largest case that is stored.
const HELD_WORDS: usize = 1200;

const HELD_OUTPUT: usize = 800;

const HELD_BYTES: usize = 64;

// The bytes of all parts of a case.
const HELD_CASE: usize = 4 * (HELD_WORDS + 2 * HELD_OUTPUT) + HELD_BYTES;

// What first differs in the next case; none where the file ends within the case, or where the case is
// too large.
pub(crate) fn case<R: Read>(file: &mut R) -> io::Result<Option<Option<Difference>>> {
    let mut head = [0u8; row::HEAD];
    if !read_bytes(file, &mut head)? {
        return Ok(None);
    }
    let mut case = [0u8; HELD_CASE];
    read_sized(file, &head, &mut case)
}

// Reads as many bytes as the case has.
fn read_sized<R: Read>(
    file: &mut R,
    head: &[u8],
    case: &mut [u8],
) -> io::Result<Option<Option<Difference>>>
    requires { 40 ≤ length head.now }
{
    let commands = natural(head, row::PARAMS);
    let lengths = commands + natural(head, row::COMMANDS);
    let given = lengths + natural(head, row::LENGTHS);
    let room = natural(head, row::OUTPUT);
    let bytes = natural(head, row::MASKS);
    let end = 4 * (given + 2 * room + (bytes + 3) / 4);
    if HELD_WORDS < given || HELD_OUTPUT < room || case.len() < end {
        return Ok(None);
    }
    if !read_bytes(file, &mut case[..end])? {
        return Ok(None);
    }
    Ok(Some(run_case(head, case, commands, lengths, given, room, bytes)))
}

// Lends as many words as the case says.
fn run_case(
    head: &[u8],
    case: &[u8],
    commands: usize,
    lengths: usize,
    given: usize,
    room: usize,
    bytes: usize,
) -> Option<Difference>
    requires { (40 ≤ length head.now) × ((commands ≤ lengths) × ((lengths ≤ given) ×
        ((given ≤ 1200) × ((room ≤ 800) × (4 * (given + 2 * room + (bytes + 3) / 4) ≤ length case.now))))) }
{
    let mut words = [0i32; HELD_WORDS];
    let mut out = [0i32; HELD_OUTPUT];
    run_parts(
        head,
        case,
        commands,
        lengths,
        bytes,
        &mut words[..given],
        &mut out[..room],
    )
}

// Reads the words that are given, of which commands and lengths start where they are said to, and
// the output as it is lent.
fn run_parts(
    head: &[u8],
    case: &[u8],
    commands: usize,
    lengths: usize,
    bytes: usize,
    words: &mut [i32],
    out: &mut [i32],
) -> Option<Difference>
    requires { (40 ≤ length head.now) × ((commands ≤ lengths) × ((lengths ≤ length words.old) ×
        (4 * (length words.old + 2 * length out.old + (bytes + 3) / 4) ≤ length case.now))) }
{
    let given = words.len();
    read_words(case, 0, words);
    read_words(case, given, out);
    run_given(head, case, commands, lengths, bytes, words, out)
}

// Makes the run. Behind the output as it is lent stand the output afterwards and the mask bytes.
fn run_given(
    head: &[u8],
    case: &[u8],
    commands: usize,
    lengths: usize,
    bytes: usize,
    words: &[i32],
    out: &mut [i32],
) -> Option<Difference>
    requires { (40 ≤ length head.now) × ((commands ≤ lengths) × ((lengths ≤ length words.now) ×
        (4 * (length words.now + 2 * length out.old + (bytes + 3) / 4) ≤ length case.now))) }
{
    let after = 4 * (words.len() + out.len());
    let masks = after + 4 * out.len();
    let end = masks + bytes;
    judged(
        head,
        &words[0..commands],
        &words[commands..lengths],
        &words[lengths..],
        &case[masks..end],
        &case[after..],
        out,
    )
}
