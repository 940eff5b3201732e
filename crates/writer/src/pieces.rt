// The command words as they are given, piece by piece: a kind and its operands.
ghost use Rattle.std.specs.Prelude.{◌≡◌, map, ◌+◌, ◌≤◌, ◌<◌, length, get_or};
ghost use Rattle.fixed.specs.Integers.{bits_of};
ghost use Rattle.writer.specs.Pieces.{is_mask, given_operands, bytes_taken, piece_at, masks_in};
ghost use Rattle.writer.specs.ToWrite.{pieces_in};
ghost use Rattle.writer.specs.Refusals.{bad_piece};

use commands::operands;
use fixed::bits_of;

// 01's numbers of the two masks, and of the last kind.
const HINT_MASK: usize = 2;

const COUNTER_MASK: usize = 3;

const LAST_KIND: usize = 9;

pub fn is_mask(kind: usize) -> bool
    ensures { result ≡ is_mask kind }
{
    matches!(kind, HINT_MASK | COUNTER_MASK)
}

// How many operands a kind has as it is given: a mask its length alone.
#[tactic(auto, unfolding(crate::specs::Pieces::given_operands))]
pub fn given_operands(kind: usize) -> usize
    ensures { (result ≡ given_operands kind) × (result ≤ 6) }
{
    if is_mask(kind) {
        return 1;
    }
    operands(kind)
}

// A given word as a natural below 2^32.
pub(crate) fn given_word(commands: &[i32], i: usize) -> u32
    requires { i < length commands.now }
    ensures { result ≡ get_or (map bits_of commands.now) i 0 }
{
    bits_of(commands[i])
}

// The same as a kind or a length.
pub(crate) fn given_natural(commands: &[i32], i: usize) -> usize
    requires { i < length commands.now }
    ensures { (result ≡ get_or (map bits_of commands.now) i 0) × (result < 4294967296) }
{
    given_word(commands, i) as usize
}

// Whether the piece at a word has no kind, or is cut off.
pub(crate) fn bad_piece(commands: &[i32], at: usize) -> bool
    requires { at < length commands.now }
    ensures { result ≡ bad_piece (piece_at (map bits_of commands.now) at) }
{
    let kind = given_natural(commands, at);
    kind < 1 || LAST_KIND < kind || commands.len() < at + 1 + given_operands(kind)
}

// The mask bytes that the piece at a word takes.
pub(crate) fn bytes_taken(commands: &[i32], at: usize) -> usize
    requires { at < length commands.now }
    ensures { (result ≡ bytes_taken (piece_at (map bits_of commands.now) at)) × (result < 4294967296) }
{
    if !is_mask(given_natural(commands, at)) || commands.len() <= at + 1 {
        return 0;
    }
    given_natural(commands, at + 1)
}

// How many of the pieces are masks.
pub(crate) fn count_masks(commands: &[i32]) -> usize
    ensures { (result ≡ masks_in (pieces_in commands.now)) × (result ≤ length commands.now) }
{
    let mut count = 0;
    let mut at = 0;
    // A kind says how far the next piece is, so the index goes by what is read.
    while at < commands.len() {
        let kind = given_natural(commands, at);
        count += usize::from(is_mask(kind));
        at += 1 + given_operands(kind);
    }
    count
}
