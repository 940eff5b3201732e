// A script is written or read back, and all that comes of it is compared with what is stored.
ghost use Rattle.std.specs.Prelude.{◌≡◌, ◌*◌, ◌≤◌, length, slice_index};
ghost use Rattle.words.specs.Words.{raw_at, number_at};
ghost use Rattle.writer.specs.ToWrite.{given};
ghost use Rattle.writer.specs.ParamWords.{params_in};
ghost use Rattle.writer.specs.Refusals.{write_of};
ghost use Rattle.readback.specs.ReadBack.{read_back_of};
ghost use Rattle.test_writer.specs.Lending.{filled, lent_byte, lent_word};
ghost use Rattle.test_writer.specs.Judging.{writing, write_verdict, reading, read_verdict};

use crate::comparing::{first_byte, same_params};
use crate::lending::{lend_bytes, lend_words};
use crate::{read_row, write_row};
use readback::{ReadBack, read_back};
use std::fmt;
use std::fmt::Display;
use test_tables::first_word;
use words::{natural, number};
use writer::{WriteAnswer, params_from, write_script};

// What first differs from what is stored. A word is one of the buffer for commands, and a byte one
// of the buffer for the script or for masks.
#[derive(Clone, Copy, Debug, PartialEq, Eq)]
pub(crate) enum Difference {
    Number,
    Place,
    Written,
    Commands,
    Masks,
    Scale,
    Params,
    Word(usize),
    Byte(usize),
}

impl Display for Difference {
    fn fmt<W: fmt::Write>(&self, f: &mut fmt::Formatter<W>) -> fmt::Result {
        match *self {
            Difference::Number => write!(f, "number"),
            Difference::Place => write!(f, "place"),
            Difference::Written => write!(f, "count of bytes written"),
            Difference::Commands => write!(f, "count of command words"),
            Difference::Masks => write!(f, "count of mask bytes"),
            Difference::Scale => write!(f, "scale"),
            Difference::Params => write!(f, "one of the parameters"),
            Difference::Word(at) => write!(f, "word {at}"),
            Difference::Byte(at) => write!(f, "byte {at}"),
        }
    }
}

// Writes a script.
pub(crate) fn judged_writing(
    head: &[u8],
    params: &[i32],
    commands: &[i32],
    masks: &[u8],
    stored: &[u8],
    script: &mut [u8],
) -> Option<Difference>
    requires { (36 ≤ length head.now) × (length script.old ≤ length stored.now) }
    ensures { result ≡ write_verdict head.now stored.now
        (write_of
        (given (number_at (raw_at head.now) 8) (params_in params.now) commands.now
        masks.now)
        (filled (lent_byte (slice_index head.now 16)) (length script.old))) }
{
    lend_bytes(script, head[4 * write_row::FILL]);
    let scale = number(head, write_row::SCALE);
    let answer = write_script(scale, params_from(params), commands, masks, script);
    compared_writing(head, stored, answer, script)
}

// What a script was written as.
fn compared_writing(
    head: &[u8],
    stored: &[u8],
    answer: WriteAnswer,
    script: &[u8],
) -> Option<Difference>
    requires { (36 ≤ length head.now) × (length script.now ≤ length stored.now) }
    ensures { result ≡
        write_verdict head.now stored.now (writing answer script.now) }
{
    if writer::code(answer) as usize != natural(head, write_row::NUMBER) {
        return Some(Difference::Number);
    }
    if writer::place(answer) != natural(head, write_row::PLACE) {
        return Some(Difference::Place);
    }
    if writer::written(answer) != natural(head, write_row::WRITTEN) {
        return Some(Difference::Written);
    }
    let first = first_byte(script, stored);
    if first < script.len() {
        return Some(Difference::Byte(first));
    }
    None
}

// Reads a script back.
pub(crate) fn judged_reading(
    head: &[u8],
    params: &[i32],
    script: &[u8],
    words: &[u8],
    bytes: &[u8],
    commands: &mut [i32],
    masks: &mut [u8],
) -> Option<Difference>
    requires { (36 ≤ length head.now) ×
        ((4 * length commands.old ≤ length words.now) × (length masks.old ≤ length bytes.now)) }
    ensures { result ≡
        read_verdict head.now params.now words.now bytes.now
        (read_back_of script.now
        (filled (lent_word (slice_index head.now 12)) (length commands.old))
        (filled (lent_byte (slice_index head.now 12)) (length masks.old))) }
{
    let fill = head[4 * read_row::FILL];
    lend_words(commands, fill);
    lend_bytes(masks, fill);
    let said = read_back(script, commands, masks);
    compared_reading(head, params, words, bytes, said, commands, masks)
}

// What a script was read back as.
fn compared_reading(
    head: &[u8],
    params: &[i32],
    words: &[u8],
    bytes: &[u8],
    said: ReadBack,
    commands: &[i32],
    masks: &[u8],
) -> Option<Difference>
    requires { (36 ≤ length head.now) ×
        ((4 * length commands.now ≤ length words.now) × (length masks.now ≤ length bytes.now)) }
    ensures { result ≡
        read_verdict head.now params.now words.now bytes.now
        (reading said commands.now masks.now) }
{
    if words::code(said.answer) as usize != natural(head, read_row::NUMBER) {
        return Some(Difference::Number);
    }
    if words::place(said.answer) != natural(head, read_row::PLACE) {
        return Some(Difference::Place);
    }
    if said.commands != natural(head, read_row::COMMANDS) {
        return Some(Difference::Commands);
    }
    if said.masks != natural(head, read_row::MASKS) {
        return Some(Difference::Masks);
    }
    if said.scale != number(head, read_row::SCALE) {
        return Some(Difference::Scale);
    }
    if !same_params(said.params, params_from(params)) {
        return Some(Difference::Params);
    }
    let word = first_word(commands, words);
    if word < commands.len() {
        return Some(Difference::Word(word));
    }
    let byte = first_byte(masks, bytes);
    if byte < masks.len() {
        return Some(Difference::Byte(byte));
    }
    None
}
