// What the input asks for, and the answer to it.
ghost use Rattle.std.specs.Prelude.{◌≡◌, ◌≤◌, length};
ghost use Rattle.writer.specs.Refusals.{write_of, Wrote};
ghost use Rattle.assemble.specs.Asked.{asked_by, answer_in};

use words::{layout, natural, number, read_words};
use writer::{WriteAnswer, WriteRefusal, params_from, write_script};

// Where the words of the input stand.
const SCALE: usize = 0;

const PARAMS: usize = 1;

const COMMANDS_COUNT: usize = 65;

const MASKS_COUNT: usize = 66;

const COMMANDS: usize = 67;

// The most command words and mask bytes that are looked at, and the bytes of an input that has as
// many.
const MOST_COMMANDS: usize = layout::MAX_SCRIPT_BYTES / 4;

const MOST_MASKS: usize = layout::MAX_SCRIPT_BYTES;

pub(crate) const INPUT_BYTES: usize = 4 * (COMMANDS + MOST_COMMANDS) + MOST_MASKS;

// Writes the script that an input asks for with so many command words and mask bytes.
fn write_asked(input: &[u8], commands: usize, masks: usize, script: &mut [u8]) -> WriteAnswer
    requires { (131340 ≤ length input.now) × ((commands ≤ 16384) × (masks ≤ 65536)) }
    ensures { Wrote (write_of (asked_by input.now commands masks) script.old) result script.new }
{
    let mut params = [0i32; layout::MAX_PARAMS];
    read_words(input, PARAMS, &mut params);
    let mut words = [0i32; MOST_COMMANDS];
    read_words(input, COMMANDS, &mut words);
    let start = 4 * (COMMANDS + commands);
    let end = start + masks;
    write_script(
        number(input, SCALE),
        params_from(&params),
        &words[..commands],
        &input[start..end],
        script,
    )
}

// The answer to an input, with the script in a lent buffer if it is OK.
pub(crate) fn answer_to(input: &[u8], script: &mut [u8]) -> WriteAnswer
    requires { (131340 ≤ length input.now) × (length script.old ≡ 65536) }
    ensures { Wrote (answer_in input.now script.old) result script.new }
{
    let commands = natural(input, COMMANDS_COUNT);
    let masks = natural(input, MASKS_COUNT);
    if MOST_COMMANDS < commands || MOST_MASKS < masks {
        return Err(WriteRefusal::ScriptRoom);
    }
    write_asked(input, commands, masks, script)
}
