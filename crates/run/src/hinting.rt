// The hints that commands leave. No records are written, so there is always room enough.
ghost use Rattle.std.specs.Prelude.{◌≡◌, ◌*◌, ◌≤◌, length, take, drop};
ghost use Rattle.hints.specs.Calls.{new_drawing};
ghost use Rattle.words.specs.Words.{raw_at};
ghost use Rattle.commands.specs.Commands.{commands_of};
ghost use Rattle.run.specs.Run.{calls_of, drawing_after, Runnable};

use crate::marks::mask_at;
use crate::running::wants_map;
use commands::{Command, Marking, read_command};
use hints::Hints;
use zones::HintState;

// The hints after the first so many commands of a script, or after all of them if there are fewer.
// They are `n` words from word `first` on, and their mask bytes start at byte `from`. The cases of
// `marked` stand here again: called from two loops it would be no part of either, and its frame of
// four copies of the hints would come on top of the run's.
pub fn hints_after(
    script: &[u8],
    first: usize,
    n: usize,
    from: usize,
    state: HintState,
    commands: usize,
) -> Hints
    requires { (4 * n ≤ length (drop (4 * first) script.now)) ×
        Runnable script.now (raw_at (drop (4 * first) script.now)) first n from }
    ensures { result ≡ (drawing_after state (new_drawing state.scale) (take commands
        (calls_of script.now from (commands_of first (raw_at (drop (4 * first) script.now)) n)))
        ).hints }
{
    let start = 4 * first;
    let mut hints = Hints::new(state.scale);
    let mut at = 0;
    for _ in 0..commands {
        if at >= n {
            return hints;
        }
        // Only where there are commands must their first word lie in the script.
        let read = read_command(&script[start..], n, at);
        let command = read.command;
        at = read.next;
        match command {
            Command::Mark(marking) => match marking {
                Marking::Bad => {}
                Marking::Stem(min, max) => hints = hints.with_stem(min, max),
                Marking::Mask { start, len } => {
                    hints = hints.with_mask(mask_at(script, from, start, len));
                }
                Marking::Counter { start, len } => {
                    hints = hints.counter(state, mask_at(script, from, start, len));
                }
                Marking::Clear => hints = Hints::new(state.scale),
                Marking::Close => {}
            },
            Command::Draw(path) => {
                if wants_map(path, hints.map.is_valid) {
                    hints = hints.ready(state);
                }
            }
        }
    }
    hints
}
