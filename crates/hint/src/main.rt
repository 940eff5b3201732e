// Reads a script from standard input, runs it into 16,384 words, and writes the answer's number,
// its place and, if it is OK, the result, as little-endian words.
#![tactic(auto)]

mod encode;

ghost use Rattle.std.specs.Prelude.{◌≤◌, length};
ghost use Rattle.hint.specs.Encode.{Answered, program_words};

use input::read_full;
use std::io;
use std::io::Write;

// The words that a script is run into; the bytes that are read at most, one more than a script can
// have; and those of the longest answer: number, place and all of the words.
const OUTPUT_WORDS: usize = 16384;

const INPUT_BYTES: usize = 65537;

const ANSWER_BYTES: usize = 65544;

// What the program writes for a script, at the start of some bytes; how many bytes that is.
fn answer_to(script: &[u8], bytes: &mut [u8]) -> usize
    requires { 65544 ≤ length bytes.old }
    ensures { Answered (program_words script.now) bytes.old result bytes.new }
{
    let mut out = [0i32; OUTPUT_WORDS];
    let answer = script::run_script(script, &mut out);
    encode::answered(answer, &out, bytes)
}

fn main(rt: HostRuntime) -> io::Result<()> {
    let mut input = [0u8; INPUT_BYTES];
    let read = read_full(&mut rt.stdin(), &mut input)?;
    let mut bytes = [0u8; ANSWER_BYTES];
    let written = answer_to(&input[..read], &mut bytes);
    rt.stdout().write_all(&bytes[..written])
}
