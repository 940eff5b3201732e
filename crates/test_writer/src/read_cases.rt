// A case of reading.
ghost use Rattle.std.specs.Prelude.{◌≡◌, ◌+◌, ◌*◌, ◌≤◌, length};
ghost use Rattle.header.specs.Header.{padded};

use crate::cases::{HELD_BYTES, HELD_WORDS};
use crate::judging::{Difference, judged_reading};
use crate::read_row;
use std::io;
use std::io::Read;
use test_tables::read_bytes;
use words::{natural, read_words};

// The bytes of all parts of a case.
const HELD_CASE: usize = 4 * (read_row::PARAMS + HELD_WORDS) + 2 * HELD_BYTES;

pub(crate) fn read_case<R: Read>(
    file: &mut R,
    head: &[u8],
) -> io::Result<Option<Option<Difference>>>
    requires { 36 ≤ length head.now }
{
    let mut case = [0u8; HELD_CASE];
    read_sized(file, head, &mut case)
}

// Reads as many bytes as the case has.
fn read_sized<R: Read>(
    file: &mut R,
    head: &[u8],
    case: &mut [u8],
) -> io::Result<Option<Option<Difference>>>
    requires { 36 ≤ length head.now }
{
    let size = natural(head, read_row::SCRIPT);
    let words = natural(head, read_row::ROOM_WORDS);
    let bytes = natural(head, read_row::ROOM_BYTES);
    let end = 4 * (read_row::PARAMS + (size + 3) / 4 + words + (bytes + 3) / 4);
    if HELD_WORDS < words || HELD_BYTES < bytes || case.len() < end {
        return Ok(None);
    }
    if !read_bytes(file, &mut case[..end])? {
        return Ok(None);
    }
    Ok(Some(run_case(head, case, size, words, bytes)))
}

// Lends as many words and bytes as the case says.
fn run_case(head: &[u8], case: &[u8], size: usize, words: usize, bytes: usize) -> Option<Difference>
    requires { (36 ≤ length head.now) × ((words ≤ 16400) × ((bytes ≤ 65600) ×
        (4 * (64 + padded size + words + padded bytes) ≤ length case.now))) }
{
    let mut params = [0i32; read_row::PARAMS];
    let mut commands = [0i32; HELD_WORDS];
    let mut masks = [0u8; HELD_BYTES];
    run_parts(
        head,
        case,
        size,
        &mut params,
        &mut commands[..words],
        &mut masks[..bytes],
    )
}

// Reads the script back from the parts of a case, which are the parameters, the script of so many
// bytes, and both buffers afterwards.
fn run_parts(
    head: &[u8],
    case: &[u8],
    size: usize,
    params: &mut [i32],
    commands: &mut [i32],
    masks: &mut [u8],
) -> Option<Difference>
    requires { (36 ≤ length head.now) × ((length params.old ≡ 64) ×
        (4 * (64 + padded size + length commands.old + padded (length masks.old)) ≤ length case.now)) }
{
    let script = 4 * read_row::PARAMS;
    let end = script + size;
    let words = script + 4 * ((size + 3) / 4);
    let bytes = words + 4 * commands.len();
    read_words(case, 0, params);
    judged_reading(
        head,
        params,
        &case[script..end],
        &case[words..],
        &case[bytes..],
        commands,
        masks,
    )
}
