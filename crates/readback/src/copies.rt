// The commands of a script, copied as the writer takes them.
ghost use Rattle.std.specs.Prelude.{◌≡◌, map, ◌+◌, ◌*◌, ◌≤◌, length};
ghost use Rattle.fixed.specs.Integers.{signed};
ghost use Rattle.words.specs.Words.{raw_at};
ghost use Rattle.words.specs.Bytes.{over, placed};
ghost use Rattle.commands.specs.Commands.{operands_of};
ghost use Rattle.writer.specs.Pieces.{piece_words, given_operands, unstarted};
ghost use Rattle.readback.specs.ReadBack.{pieces_from, shortened, script_piece, WholeCommands};

use commands::operands;
use words::{natural, read_words, word};
use writer::given_operands;

// How many words the commands have without the starts of their masks.
pub(crate) fn count_short(script: &[u8], first: usize, n: usize) -> usize
    requires { WholeCommands script.now first n }
    ensures { result ≡ length (shortened (pieces_from (raw_at script.now) first n)) }
{
    let mut count = 0;
    let mut at = 0;
    // A kind says how far the next piece is, so the index goes by what is read.
    while at < n {
        let kind = natural(script, first + at);
        count += 1 + given_operands(kind);
        at += 1 + operands(kind);
    }
    count
}

// The piece at a word of a script, without its start, at a place of the commands.
fn copy_piece(script: &[u8], at: usize, commands: &mut [i32], to: usize)
    requires { (4 * (at + 1 + operands_of (raw_at script.now at)) ≤ length script.now) ×
        (to + 1 + given_operands (raw_at script.now at) ≤ length commands.old) }
    ensures { commands.new ≡
        placed commands.old to
        (map signed (piece_words (unstarted (script_piece (raw_at script.now) at)))) }
{
    let kind = natural(script, at);
    let given = given_operands(kind);
    let next = at + 1 + operands(kind);
    let behind = to + 1;
    let end = behind + given;
    commands[to] = word(script, at);
    read_words(script, next - given, &mut commands[behind..end]);
}

// All of them, from the start of the commands on, and how many words they have.
pub(crate) fn copy_commands(script: &[u8], first: usize, n: usize, commands: &mut [i32]) -> usize
    requires { WholeCommands script.now first n ×
        (length (shortened (pieces_from (raw_at script.now) first n)) ≤ length commands.old) }
    ensures { (result ≡ length (shortened (pieces_from (raw_at script.now) first n))) ×
        (commands.new ≡
        over (map signed (shortened (pieces_from (raw_at script.now) first n))) commands.old) }
{
    let mut to = 0;
    let mut at = 0;
    // A kind says how far the next piece is, so the index goes by what is read.
    while at < n {
        let kind = natural(script, first + at);
        copy_piece(script, first + at, commands, to);
        to += 1 + given_operands(kind);
        at += 1 + operands(kind);
    }
    to
}
