// Reads a script from standard input and writes, for people, the edges of its map after so many
// commands as the argument says, or after all of them: a line an edge, and one that counts them. A
// script that is refused and an argument that is no number give a line that says so.
#![tactic(auto)]

mod argument;
mod counts;
mod line;
mod page;

ghost use Rattle.std.specs.Prelude.{◌≤◌, length};

use input::read_full;
use std::env::FillError;
use std::io;
use std::io::Write;
use std::rt::Env;

// The bytes that are read at most, one more than a script can have; those of an argument; and those
// of the longest page: 96 edges and a summary, under 100 bytes each.
const INPUT_BYTES: usize = 65537;

const ARGUMENT_BYTES: usize = 4096;

const PAGE_BYTES: usize = 16384;

// The page that the argument asks for; how many bytes that is. An argument that has more bytes than
// there is room for is no number.
fn asked_page<R: Env>(rt: &R, script: &[u8], out: &mut [u8]) -> usize
    requires { 16384 ≤ length out.old }
    ensures { result ≤ length out.new }
{
    let mut text = [0u8; ARGUMENT_BYTES];
    match rt.arg(1, &mut text) {
        Ok(len) => page::page_for(script, &text[..len], out),
        Err(FillError::TooLong) => page::page_for(script, b"", out),
        Err(FillError::NotPresent) => page::page(script, argument::MOST_COMMANDS, out),
    }
}

fn main(rt: HostRuntime) -> io::Result<()> {
    let mut input = [0u8; INPUT_BYTES];
    let read = read_full(&mut rt.stdin(), &mut input)?;
    let mut out = [0u8; PAGE_BYTES];
    let written = asked_page(&rt, &input[..read], &mut out);
    rt.stdout().write_all(&out[..written])
}
