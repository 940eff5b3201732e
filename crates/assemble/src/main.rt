// Reads from standard input what a script shall say, as little-endian words: the scale, 64
// parameter words, how many command words there are and how many mask bytes, the command words; and
// behind them the mask bytes. Writes the answer's number, its place and, if it is OK, the script.
//
// A script has at most 65,536 bytes. So more than 16,384 command words or 65,536 mask bytes are
// SCRIPT_ROOM at place 0 without a look at the rest, and come before every other refusal: in a text,
// which tools/assemble looks through first, only the scale can be refused besides. No more bytes
// are read than the longest input has that is looked at. They are read into zeros, which stand for
// what is missing, and bytes behind the masks are not looked at.
#![tactic(auto)]

mod asked;

ghost use Rattle.std.specs.Prelude.{◌≤◌, length};
ghost use Rattle.assemble.specs.Asked.{program_bytes, AtStart};

use input::read_full;
use std::io;
use std::io::Write;
use words::{layout, store};

// The bytes of number and place, and with those of the longest script.
const ANSWER_BYTES: usize = 8;

const OUTPUT_BYTES: usize = ANSWER_BYTES + layout::MAX_SCRIPT_BYTES;

// 2^32: a place is stored by its low 32 bits.
const WORD: usize = 4294967296;

// What the program writes for an input, at the start of some bytes; how many bytes that is.
fn assembled(input: &[u8], out: &mut [u8]) -> usize
    requires { (131340 ≤ length input.now) × (65544 ≤ length out.old) }
    ensures { AtStart (program_bytes input.now) out.old result out.new }
{
    let answer = asked::answer_to(input, &mut out[ANSWER_BYTES..OUTPUT_BYTES]);
    store(out, 0, writer::code(answer));
    store(out, 1, (writer::place(answer) % WORD) as u32);
    ANSWER_BYTES + writer::written(answer)
}

fn main(rt: HostRuntime) -> io::Result<()> {
    let mut input = [0u8; asked::INPUT_BYTES];
    read_full(&mut rt.stdin(), &mut input)?;
    let mut out = [0u8; OUTPUT_BYTES];
    let written = assembled(&input, &mut out);
    rt.stdout().write_all(&out[..written])
}
