// The parts of a script, each stored where it stands.
ghost use Rattle.std.specs.Prelude.{◌≡◌, [], ◌∷◌, map, ◌+◌, ◌*◌, ◌≤◌, ◌<◌, length, get_or};
ghost use Rattle.fixed.specs.Integers.{bits_of};
ghost use Rattle.zones.specs.Zones.{max_blues, list_of};
ghost use Rattle.words.specs.Bytes.{laid};
ghost use Rattle.header.specs.Header.{padded};
ghost use Rattle.writer.specs.Pieces.{piece_at, piece_words, given_operands, started};
ghost use Rattle.writer.specs.ToWrite.{pair_words, number_words, param_words, header_words, command_words};
ghost use Rattle.writer.specs.ToWrite.{padded_bytes};
ghost use Rattle.writer.specs.Refusals.{FineCommands, FineParams};

use crate::pieces::{bytes_taken, given_natural, given_operands, given_word, is_mask};
use commands::operands;
use fixed::{Fixed, bits_of};
use words::{copy_bytes, layout, store, store_words};
use zones::{Blue, Blues, HintParams};

// What every header says: its version, and that the parameters start behind it.
const VERSION: i32 = layout::VERSION_ONE as i32;

const PARAMS_START: i32 = layout::HEADER_WORDS as i32;

const HEADER_WORDS: u32 = layout::HEADER_WORDS as u32;

// The header, by the number of words of the parameters and of the commands, and that of the mask
// bytes.
pub(crate) fn store_header(script: &mut [u8], scale: Fixed, params: u32, commands: u32, bytes: u32)
    requires { (32 ≤ length script.old) × ((params ≤ 64) × ((commands ≤ 16384) × (bytes ≤ 65536))) }
    ensures { script.new ≡ laid script.old 0 (header_words scale params commands bytes) }
{
    let number = scale.bits;
    let first = HEADER_WORDS + params;
    let end = first + commands;
    let words = [
        VERSION,
        number,
        PARAMS_START,
        params as i32,
        first as i32,
        commands as i32,
        end as i32,
        bytes as i32,
    ];
    store_words(script, layout::VERSION, &words);
}

// How many words the parameters have.
pub(crate) fn count_params(params: HintParams) -> usize
    requires { FineParams params }
    ensures { (result ≡ length (param_words params)) × (result ≤ 64) }
{
    let pairs = params.blues.count
        + params.other_blues.count
        + params.family_blues.count
        + params.family_other_blues.count;
    layout::MIN_PARAMS + 2 * pairs
}

// The four numbers and the four counts.
fn store_numbers(script: &mut [u8], params: HintParams)
    requires { (64 ≤ length script.old) × FineParams params }
    ensures { script.new ≡ laid script.old 8 (number_words params) }
{
    let words = [
        params.blue_scale.bits,
        params.blue_shift.bits,
        params.blue_fuzz.bits,
        params.language_group,
        params.blues.count as i32,
        params.other_blues.count as i32,
        params.family_blues.count as i32,
        params.family_other_blues.count as i32,
    ];
    store_words(script, layout::BLUE_SCALE, &words);
}

fn store_pair(script: &mut [u8], i: usize, pair: Blue)
    requires { 4 * i + 8 ≤ length script.old }
    ensures { script.new ≡ laid script.old i (pair_words (pair ∷ [])) }
{
    store(script, i, bits_of(pair.bottom.bits));
    store(script, i + 1, bits_of(pair.top.bits));
}

// The pairs of a list that count, from a word on.
fn store_blues(script: &mut [u8], first: usize, blues: Blues)
    requires { (blues.count ≤ max_blues) × (4 * first + 8 * blues.count ≤ length script.old) }
    ensures { script.new ≡ laid script.old first (pair_words (list_of blues)) }
{
    for (i, pair) in blues.pairs[..blues.count].iter().enumerate() {
        store_pair(script, first + 2 * i, *pair);
    }
}

pub(crate) fn store_params(script: &mut [u8], params: HintParams)
    requires { (4 * (8 + length (param_words params)) ≤ length script.old) × FineParams params }
    ensures { script.new ≡ laid script.old 8 (param_words params) }
{
    let at_others = layout::PAIRS + 2 * params.blues.count;
    let at_family = at_others + 2 * params.other_blues.count;
    let at_family_others = at_family + 2 * params.family_blues.count;
    store_numbers(script, params);
    store_blues(script, layout::PAIRS, params.blues);
    store_blues(script, at_others, params.other_blues);
    store_blues(script, at_family, params.family_blues);
    store_blues(script, at_family_others, params.family_other_blues);
}

// The piece at a word of the given ones, with its start if it is a mask.
fn store_piece(script: &mut [u8], to: usize, commands: &[i32], at: usize, start: u32)
    requires { (at + 1 + given_operands (get_or (map bits_of commands.now) at 0) ≤ length commands.now) ×
        (4 * (to + length (piece_words (started start (piece_at (map bits_of commands.now) at)))) ≤
        length script.old) }
    ensures { script.new ≡
        laid script.old to (piece_words (started start (piece_at (map bits_of commands.now) at))) }
{
    let kind = given_natural(commands, at);
    if is_mask(kind) {
        store(script, to, given_word(commands, at));
        store(script, to + 1, start);
        store(script, to + 2, given_word(commands, at + 1));
        return;
    }
    let next = at + 1 + operands(kind);
    store_words(script, to, &commands[at..next]);
}

// The commands, from a word of the script on.
pub(crate) fn store_commands(script: &mut [u8], first: usize, commands: &[i32])
    requires { (4 * (first + length (command_words commands.now)) ≤ length script.old) ×
        FineCommands commands.now }
    ensures { script.new ≡ laid script.old first (command_words commands.now) }
{
    let mut start = 0;
    let mut to = first;
    let mut at = 0;
    // A kind says how far the next piece is, so the index goes by what is read.
    while at < commands.len() {
        let kind = given_natural(commands, at);
        store_piece(script, to, commands, at, start as u32);
        start += bytes_taken(commands, at);
        to += 1 + operands(kind);
        at += 1 + given_operands(kind);
    }
}

// The mask bytes, and zeros behind them.
pub(crate) fn store_masks(part: &mut [u8], masks: &[u8])
    requires { length part.old ≡ 4 * padded (length masks.now) }
    ensures { part.new ≡ padded_bytes masks.now }
{
    copy_bytes(masks, part);
    part[masks.len()..].fill(0);
}
