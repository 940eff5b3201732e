// The tests of what is given, in request 1's order. `Ok(0)` says that none of them holds.
ghost use Rattle.std.specs.Prelude.{◌≡◌, ◌++◌, ◌+◌, ◌*◌, ◌≤◌, ltb};
ghost use Rattle.zones.specs.Zones.{max_blues};
ghost use Rattle.words.specs.Rows.{first_or};
ghost use Rattle.header.specs.Header.{padded};
ghost use Rattle.writer.specs.ToWrite.{pieces_in};
ghost use Rattle.writer.specs.Refusals.{given_rows, too_long, piece_rows, room_row};

use crate::pieces::{bad_piece, bytes_taken, given_natural, given_operands};
use crate::write_answer::{WriteAnswer, WriteRefusal};
use fixed::Fixed;
use words::layout;
use zones::{Blues, HintParams, MAX_BLUES};

// 2^31, from which on 32 bits are negative.
const NEGATIVE: usize = 2147483648;

fn too_many(blues: Blues) -> bool
    ensures { result ≡ ltb max_blues blues.count }
{
    MAX_BLUES < blues.count
}

// The scale and the four counts.
#[tactic(auto, unfolding(crate::specs::Refusals::given_rows, words::specs::Rows::first_or))]
fn check_numbers(scale: Fixed, params: HintParams) -> WriteAnswer
    ensures { result ≡ first_or (Ok 0) (given_rows scale params) }
{
    if scale.bits < 1 {
        return Err(WriteRefusal::BadScale);
    }
    if too_many(params.blues) {
        return Err(WriteRefusal::BadBlues(layout::BLUES_COUNT));
    }
    if too_many(params.other_blues) {
        return Err(WriteRefusal::BadBlues(layout::OTHER_BLUES_COUNT));
    }
    if too_many(params.family_blues) {
        return Err(WriteRefusal::BadBlues(layout::FAMILY_BLUES_COUNT));
    }
    if too_many(params.family_other_blues) {
        return Err(WriteRefusal::BadBlues(layout::FAMILY_OTHER_BLUES_COUNT));
    }
    Ok(0)
}

// Whether a mask's length is negative, or more than the bytes not yet taken.
fn too_long(len: usize, left: usize) -> bool
    ensures { result ≡ too_long len left }
{
    NEGATIVE <= len || left < len
}

// The commands first to last, and the mask bytes that none of them takes.
fn check_pieces(commands: &[i32], bytes: usize) -> WriteAnswer
    ensures { result ≡ first_or (Ok 0) (piece_rows 0 bytes (pieces_in commands.now)) }
{
    let mut left = bytes;
    let mut at = 0;
    // A kind says how far the next piece is, so the index goes by what is read.
    while at < commands.len() {
        if bad_piece(commands, at) {
            return Err(WriteRefusal::BadCommand(at));
        }
        let taken = bytes_taken(commands, at);
        if too_long(taken, left) {
            return Err(WriteRefusal::BadMask(at));
        }
        left -= taken;
        at += 1 + given_operands(given_natural(commands, at));
    }
    if 0 < left {
        return Err(WriteRefusal::BadMask(at));
    }
    Ok(0)
}

// All tests but that of the room.
#[tactic(auto, using(crate::proofs::PieceFaults::given_in_turn))]
pub(crate) fn check_given(
    scale: Fixed,
    params: HintParams,
    commands: &[i32],
    bytes: usize,
) -> WriteAnswer
    ensures { result ≡ first_or (Ok 0)
        (given_rows scale params ++ piece_rows 0 bytes (pieces_in commands.now)) }
{
    check_numbers(scale, params)?;
    check_pieces(commands, bytes)
}

// The most words of a script.
const MAX_SCRIPT_WORDS: usize = layout::MAX_SCRIPT_BYTES / 4;

// Whether a script with so many words of parameters and of commands and so many mask bytes has no
// room. What is longer than any script is tested first, so that the sum stays small.
pub(crate) fn no_room(params: usize, words: usize, bytes: usize, room: usize) -> bool
    requires { params ≤ 64 }
    ensures { result ≡ (room_row (4 * (8 + params + words + padded bytes)) room).fault }
{
    if MAX_SCRIPT_WORDS < words || layout::MAX_SCRIPT_BYTES < bytes {
        return true;
    }
    let size = 4 * (layout::HEADER_WORDS + params + words + (bytes + 3) / 4);
    room < size || layout::MAX_SCRIPT_BYTES < size
}
