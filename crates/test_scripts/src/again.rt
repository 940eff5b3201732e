// A script is read back and written again.
ghost use Rattle.std.specs.Prelude.{◌≡◌, ◌≤◌, length, take, replicate, pos};
ghost use Rattle.test_scripts.specs.Again.{written_as, write_again_of};

use readback::read_back;
use writer::{WriteAnswer, write_script};

// What becomes of a script.
#[derive(Clone, Copy, Debug, PartialEq, Eq)]
pub(crate) enum Again {
    // The reader refuses it.
    NotRead,
    SameBytes,
    OtherBytes,
    // The writer refuses what was read.
    Refused,
}

// There is place for more words and bytes than a script may have.
const HELD_WORDS: usize = 16400;

const HELD_BYTES: usize = 65600;

// What the writer says and leaves, compared with the script.
fn compared(script: &[u8], answer: WriteAnswer, left: &[u8]) -> Again
    ensures { result ≡ written_as script.now answer left.now }
{
    if writer::code(answer) != 0 {
        return Again::Refused;
    }
    if writer::written(answer) != script.len() {
        return Again::OtherBytes;
    }
    if left == script {
        return Again::SameBytes;
    }
    Again::OtherBytes
}

// Reads a script back into two lent buffers, and writes what they hold into a third.
fn write_again(script: &[u8], commands: &mut [i32], masks: &mut [u8], written: &mut [u8]) -> Again
    ensures { result ≡ write_again_of script.now commands.old masks.old
        written.old }
{
    let back = read_back(script, commands, masks);
    if back.answer.is_err() {
        return Again::NotRead;
    }
    let words = back.commands;
    let bytes = back.masks;
    let said = write_script(
        back.scale,
        back.params,
        &commands[..words],
        &masks[..bytes],
        written,
    );
    compared(script, said, written)
}

// Lends as many of the held bytes as the script has. The reader refuses one that has more.
fn again_sized(script: &[u8], commands: &mut [i32], masks: &mut [u8], held: &mut [u8]) -> Again
    requires { 65536 ≤ length held.old }
    ensures { result ≡ write_again_of script.now commands.old masks.old
        (take (length script.now) held.old) }
{
    let size = script.len();
    if held.len() < size {
        return Again::NotRead;
    }
    write_again(script, commands, masks, &mut held[..size])
}

// What becomes of a script, in buffers that hold zeros.
pub(crate) fn script_again(script: &[u8]) -> Again
    ensures { result ≡ write_again_of script.now (replicate 16400 (pos 0)) (replicate 65600 0)
        (take (length script.now) (replicate 65600 0)) }
{
    let mut commands = [0i32; HELD_WORDS];
    let mut masks = [0u8; HELD_BYTES];
    let mut held = [0u8; HELD_BYTES];
    again_sized(script, &mut commands, &mut masks, &mut held)
}
