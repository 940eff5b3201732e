// Writing a script.
ghost use Rattle.std.specs.Prelude.{◌≡◌, length};
ghost use Rattle.words.specs.Bytes.{over};
ghost use Rattle.writer.specs.ToWrite.{given, script_for};
ghost use Rattle.writer.specs.Refusals.{write_of, Wrote, Writable};

use crate::parts::{count_params, store_commands, store_header, store_masks, store_params};
use crate::pieces::count_masks;
use crate::tests::{check_given, no_room};
use crate::write_answer::{WriteAnswer, WriteRefusal};
use fixed::Fixed;
use words::layout;
use zones::HintParams;

// Stores a script that no test holds of; how many bytes it has.
fn write_parts(
    scale: Fixed,
    params: HintParams,
    commands: &[i32],
    masks: &[u8],
    script: &mut [u8],
) -> usize
    requires { Writable (given scale params commands.now masks.now) (length script.old) }
    ensures { (result ≡ length (script_for (given scale params commands.now masks.now))) ×
        (script.new ≡
        over (script_for (given scale params commands.now masks.now)) script.old) }
{
    let count = count_params(params);
    let words = commands.len() + count_masks(commands);
    let first = layout::HEADER_WORDS + count;
    let at = 4 * (first + words);
    let size = at + 4 * ((masks.len() + 3) / 4);
    store_header(
        script,
        scale,
        count as u32,
        words as u32,
        masks.len() as u32,
    );
    store_params(script, params);
    store_commands(script, first, commands);
    store_masks(&mut script[at..size], masks);
    size
}

// Writes the script that says what is given at the start of a lent buffer, or refuses and writes
// nothing.
pub fn write_script(
    scale: Fixed,
    params: HintParams,
    commands: &[i32],
    masks: &[u8],
    script: &mut [u8],
) -> WriteAnswer
    ensures { Wrote
        (write_of (given scale params commands.now masks.now) script.old) result
        script.new }
{
    check_given(scale, params, commands, masks.len())?;
    let count = count_params(params);
    let words = commands.len() + count_masks(commands);
    if no_room(count, words, masks.len(), script.len()) {
        return Err(WriteRefusal::ScriptRoom);
    }
    Ok(write_parts(scale, params, commands, masks, script))
}
