// The first fault among the commands.
ghost use Rattle.std.specs.Prelude.{◌≡◌, ◌+◌, ◌*◌, ◌≤◌, ◌<◌, length, drop};
ghost use Rattle.words.specs.Words.{raw_at};
ghost use Rattle.words.specs.Answers.{Says, first_of};
ghost use Rattle.commands.specs.Commands.{commands_of};
ghost use Rattle.commands.specs.Faults.{mask_past, mask_answer, fault_rows, command_rows};

use crate::reading::{Command, Marking, read_command};
use words::{Answer, Refusal};

// Whether a mask's end is past the mask bytes: what is negative is, as a natural, past them.
fn mask_past(start: u32, len: u32, bytes: usize) -> bool
    requires { bytes < 2147483648 }
    ensures { result ≡ mask_past start len bytes }
{
    bytes < (start as usize) + (len as usize)
}

fn mask_fault(start: u32, len: u32, bytes: usize, place: usize) -> Answer
    requires { bytes < 2147483648 }
    ensures { result ≡ mask_answer start len bytes place }
{
    if mask_past(start, len, bytes) {
        return Err(Refusal::BadMask(place));
    }
    Ok(())
}

// What is wrong with a command at a place, where there are so many mask bytes.
#[tactic(auto, unfolding(words::specs::Rows::first_or))]
pub fn fault_in(command: Command, bytes: usize, place: usize) -> Answer
    requires { bytes < 2147483648 }
    ensures { result ≡ first_of (fault_rows bytes place command) }
{
    let Command::Mark(marking) = command else {
        return Ok(());
    };
    match marking {
        Marking::Bad => Err(Refusal::BadCommand(place)),
        Marking::Mask { start, len } => mask_fault(start, len, bytes, place),
        Marking::Counter { start, len } => mask_fault(start, len, bytes, place),
        Marking::Stem(_, _) | Marking::Clear | Marking::Close => Ok(()),
    }
}

// The first fault among the commands of a part, the first of which is word `first` of the script.
#[tactic(auto, using(crate::proofs::Laws::tests_in_turn))]
fn check_part(part: &[u8], first: usize, n: usize, bytes: usize) -> Answer
    requires { (4 * n ≤ length part.now) × ((first ≤ 16384) × ((n ≤ 16384) × (bytes ≤ 65536))) }
    ensures { result ≡ first_of (command_rows bytes (commands_of first (raw_at part.now) n)) }
{
    let mut at = 0;
    // A command says how many words it has, so the index goes by what is read.
    while at < n {
        let read = read_command(part, n, at);
        let command = read.command;
        fault_in(command, bytes, first + at)?;
        at = read.next;
    }
    Ok(())
}

// The same over a whole script, whose `n` command words start at word `first`.
pub fn check_commands(script: &[u8], first: usize, n: usize, bytes: usize) -> Answer
    requires { (4 * (first + n) ≤ length script.now) × ((length script.now ≤ 65536) × (bytes ≤ 65536)) }
    ensures { Says (first_of
        (command_rows bytes (commands_of first (raw_at (drop (4 * first) script.now)) n))) result }
{
    let at = 4 * first;
    check_part(&script[at..], first, n, bytes)
}
