// The program's answer as little-endian words.
ghost use Rattle.std.specs.Prelude.{◌≡◌, ◌+◌, ◌*◌, ◌≤◌, length};
ghost use Rattle.hint.specs.Encode.{result_in, answer_words, Answered};

use fixed::{bits_of, least};
use words::{Answer, code, place, store, store_words};

// How many words of an output are the result: its header, and the record words that the header
// names.
pub(crate) fn result_words(out: &[i32]) -> usize
    ensures { result ≡ length (result_in out.now) }
{
    match out.get(3) {
        None => out.len(),
        Some(records) => least(4 + (bits_of(*records) as usize), out.len()),
    }
}

// An answer and, if it is OK, the result that an output holds, at the start of some bytes; how many
// bytes that is.
pub(crate) fn answered(answer: Answer, out: &[i32], bytes: &mut [u8]) -> usize
    requires { 4 * length out.now + 8 ≤ length bytes.old }
    ensures { Answered (answer_words answer (result_in out.now)) bytes.old result
        bytes.new }
{
    store(bytes, 0, code(answer));
    store(bytes, 1, (place(answer) % 4294967296) as u32);
    if answer.is_err() {
        return 8;
    }
    let words = result_words(out);
    store_words(bytes, 2, &out[..words]);
    8 + 4 * words
}
