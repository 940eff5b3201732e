// Reading a script back.
ghost use Rattle.std.specs.Prelude.{◌≡◌, false, length, Ok};
ghost use Rattle.words.specs.Answers.{first_of};
ghost use Rattle.script.specs.Script.{check_rows};
ghost use Rattle.readback.specs.ReadBack.{no_params, refused_back, read_rows, read_back_of, read_by, given_in, ReadAs};

use crate::copies::{copy_commands, count_short};
use fixed::Fixed;
use header::read_params;
use script::check_script;
use words::{Answer, Refusal, copy_bytes, layout, natural, number};
use zones::{Blue, Blues, HintParams, MAX_BLUES};

// What a script says beside its command words and mask bytes, and how many of these there are;
// zeros beside a refusal.
#[derive(Clone, Copy)]
pub struct ReadBack {
    // A refusal has zeros beside it (docs/RULES.md, R11), so that no Result is around the whole.
    pub answer: Answer,
    pub scale: Fixed,
    pub params: HintParams,
    pub commands: usize,
    pub masks: usize,
}

// Parameters that are all 0.
fn no_params() -> HintParams
    ensures { result ≡ no_params }
{
    let none = Blue {
        bottom: Fixed::ZERO,
        top: Fixed::ZERO,
    };
    let blues = Blues {
        pairs: [none; MAX_BLUES],
        count: 0,
    };
    HintParams {
        blue_scale: Fixed::ZERO,
        blue_shift: Fixed::ZERO,
        blue_fuzz: Fixed::ZERO,
        language_group: 0,
        blues,
        other_blues: blues,
        family_blues: blues,
        family_other_blues: blues,
    }
}

// A refusal, beside which everything is 0.
fn refused(answer: Answer) -> ReadBack
    ensures { result ≡ refused_back answer }
{
    ReadBack {
        answer,
        scale: Fixed::ZERO,
        params: no_params(),
        commands: 0,
        masks: 0,
    }
}

// Whether the commands and the mask bytes of a script that passes all tests have room.
fn check_room(script: &[u8], words: usize, bytes: usize) -> Answer
    requires { first_of (check_rows script.now) ≡ Ok tt }
    ensures { result ≡ first_of (read_rows script.now words bytes) }
{
    let first = natural(script, layout::COMMANDS_START);
    let count = natural(script, layout::COMMANDS_COUNT);
    if words < count_short(script, first, count) {
        return Err(Refusal::NoRoom(layout::COMMANDS_COUNT));
    }
    if bytes < natural(script, layout::MASKS_COUNT) {
        return Err(Refusal::NoRoom(layout::MASKS_COUNT));
    }
    Ok(())
}

// Such a script with room for both.
fn copied(script: &[u8], commands: &mut [i32], masks: &mut [u8]) -> ReadBack
    requires { first_of (read_rows script.now (length commands.old) (length masks.old)) ≡ Ok tt }
    ensures { ReadAs (read_by false (Ok tt) (given_in script.now) commands.old
        masks.old) result commands.new masks.new }
{
    let first = natural(script, layout::COMMANDS_START);
    let count = natural(script, layout::COMMANDS_COUNT);
    let from = 4 * natural(script, layout::MASKS_START);
    let bytes = natural(script, layout::MASKS_COUNT);
    let end = from + bytes;
    let words = copy_commands(script, first, count, commands);
    copy_bytes(&script[from..end], masks);
    ReadBack {
        answer: Ok(()),
        scale: number(script, layout::SCALE),
        params: read_params(script),
        commands: words,
        masks: bytes,
    }
}

// Reads a script back into lent buffers: the command words, each mask as its kind and its length,
// and the mask bytes.
pub fn read_back(script: &[u8], commands: &mut [i32], masks: &mut [u8]) -> ReadBack
    ensures { ReadAs (read_back_of script.now commands.old masks.old) result
        commands.new masks.new }
{
    let fault = check_script(script);
    if fault.is_err() {
        return refused(fault);
    }
    let room = check_room(script, commands.len(), masks.len());
    if room.is_err() {
        return refused(room);
    }
    copied(script, commands, masks)
}
