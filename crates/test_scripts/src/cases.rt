// One case.
ghost use Rattle.std.specs.Prelude.{◌*◌, ◌≤◌, length};

use crate::again::{Again, script_again};
use crate::judging::{Difference, judged};
use std::io;
use std::io::Read;
use test_tables::read_bytes;
use words::natural;

// A case's number and mark, as stored, where its run differs, if it does, and what becomes of its
// script.
#[derive(Clone, Copy, Debug, PartialEq, Eq)]
pub(crate) struct Judged {
    pub number: usize,
    pub mark: usize,
    pub difference: Option<Difference>,
    pub again: Again,
}

// One case; none where the file ends within it, or where it is too large. There is place for 16,400
// words of script, which are more than a script may have, and for 4,096 of room.
pub(crate) fn case<R: Read>(file: &mut R) -> io::Result<Option<Judged>> {
    let mut script = [0u8; 65600];
    let mut stored = [0u8; 16384];
    let mut out = [0i32; 4096];
    read_case(file, &mut script, &mut stored, &mut out)
}

// Reads a case, which is six words of header, the script up to a whole word, and the words of the
// room.
fn read_case<R: Read>(
    file: &mut R,
    script: &mut [u8],
    stored: &mut [u8],
    out: &mut [i32],
) -> io::Result<Option<Judged>> {
    let mut head = [0u8; 24];
    if !read_bytes(file, &mut head)? {
        return Ok(None);
    }
    let length = natural(&head, 0);
    let room = natural(&head, 1);
    let padded = 4 * ((length + 3) / 4);
    let end = 4 * room;
    if script.len() < padded || stored.len() < end || out.len() < room {
        return Ok(None);
    }
    read_rest(
        file,
        &head,
        length,
        &mut script[..padded],
        &mut stored[..end],
        &mut out[..room],
    )
}

// Reads the padded script and the stored words, and runs the script, which is so many bytes long.
fn read_rest<R: Read>(
    file: &mut R,
    head: &[u8],
    bytes: usize,
    padded: &mut [u8],
    stored: &mut [u8],
    out: &mut [i32],
) -> io::Result<Option<Judged>>
    requires { (24 ≤ length head.now) ×
        ((bytes ≤ length padded.old) × (4 * length out.old ≤ length stored.old)) }
{
    if !read_bytes(file, padded)? || !read_bytes(file, stored)? {
        return Ok(None);
    }
    let difference = judged(head, &padded[..bytes], stored, out);
    let again = script_again(&padded[..bytes]);
    Ok(Some(Judged {
        number: natural(head, 4),
        mark: natural(head, 3),
        difference,
        again,
    }))
}
