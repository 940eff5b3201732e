// A case of writing.
ghost use Rattle.std.specs.Prelude.{◌+◌, ◌*◌, ◌≤◌, length};
ghost use Rattle.header.specs.Header.{padded};

use crate::cases::{HELD_BYTES, HELD_WORDS};
use crate::judging::{Difference, judged_writing};
use crate::write_row;
use std::io;
use std::io::Read;
use test_tables::read_bytes;
use words::{natural, read_words};

// There is place for more parameters than are read.
const HELD_PARAMS: usize = 72;

// The bytes of all parts of a case.
const HELD_CASE: usize = 4 * (HELD_PARAMS + HELD_WORDS) + 2 * HELD_BYTES;

pub(crate) fn write_case<R: Read>(
    file: &mut R,
    head: &[u8],
) -> io::Result<Option<Option<Difference>>>
    requires { 36 ≤ length head.now }
{
    let mut case = [0u8; HELD_CASE];
    read_sized(file, head, &mut case)
}

// Reads as many bytes as the case has.
fn read_sized<R: Read>(
    file: &mut R,
    head: &[u8],
    case: &mut [u8],
) -> io::Result<Option<Option<Difference>>>
    requires { 36 ≤ length head.now }
{
    let words = natural(head, write_row::PARAMS);
    let count = natural(head, write_row::COMMANDS);
    let bytes = natural(head, write_row::MASKS);
    let room = natural(head, write_row::ROOM);
    let end = 4 * (words + count + (bytes + 3) / 4 + (room + 3) / 4);
    if HELD_PARAMS < words || HELD_WORDS < count || HELD_BYTES < room || case.len() < end {
        return Ok(None);
    }
    if !read_bytes(file, &mut case[..end])? {
        return Ok(None);
    }
    Ok(Some(run_case(head, case, words, count, bytes, room)))
}

// Lends as many words and bytes as the case says.
fn run_case(
    head: &[u8],
    case: &[u8],
    words: usize,
    count: usize,
    bytes: usize,
    room: usize,
) -> Option<Difference>
    requires { (36 ≤ length head.now) × ((words ≤ 72) × ((count ≤ 16400) × ((room ≤ 65600) ×
        (4 * (words + count + padded bytes + padded room) ≤ length case.now)))) }
{
    let mut params = [0i32; HELD_PARAMS];
    let mut commands = [0i32; HELD_WORDS];
    let mut script = [0u8; HELD_BYTES];
    run_parts(
        head,
        case,
        bytes,
        &mut params[..words],
        &mut commands[..count],
        &mut script[..room],
    )
}

// Writes the script from the parts of a case, which are the parameters, the commands, so many mask
// bytes and the buffer afterwards.
fn run_parts(
    head: &[u8],
    case: &[u8],
    bytes: usize,
    params: &mut [i32],
    commands: &mut [i32],
    script: &mut [u8],
) -> Option<Difference>
    requires { (36 ≤ length head.now) ×
        (4 * (length params.old + length commands.old + padded bytes + padded (length script.old)) ≤
        length case.now) }
{
    let first = params.len();
    read_words(case, 0, params);
    read_words(case, first, commands);
    let masks = 4 * (first + commands.len());
    let end = masks + bytes;
    let stored = masks + 4 * ((bytes + 3) / 4);
    judged_writing(
        head,
        params,
        commands,
        &case[masks..end],
        &case[stored..],
        script,
    )
}
