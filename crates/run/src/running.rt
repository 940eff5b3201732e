// The run: commands first to last, each drawing call lent the output from the next free word on.
ghost use Rattle.std.specs.Prelude.{◌≡◌, ◌*◌, ◌≤◌, length};
ghost use Rattle.zones.specs.Numbers.{state_in};
ghost use Rattle.words.specs.Words.{raw_at, given_word};
ghost use Rattle.commands.specs.Commands.{word_by, count_by, commands_of};
ghost use Rattle.run.specs.Run.{calls_of, wants_map, is_close, ran_of, Ended, Runnable};

use crate::kept::{KeptLists, Sizes};
use crate::marks::marked;
use commands::{Command, Marking, Words, read_by};
use hints::draw_by_lines;
use pen::{Path, Pen};
use stems::HINT_MASK_SIZE;
use words::{Answer, Refusal};
use zones::{Gauge, HintState, ZONE_NUMBERS};

// How a run ended: the answer, and the record words that were written.
#[derive(Clone, Copy)]
pub struct Ran {
    pub answer: Answer,
    pub words: usize,
}

// Whether a call has points, which the current map carries, and that map is not valid yet.
pub(crate) fn wants_map(path: Path, valid: bool) -> bool
    ensures { result ≡ wants_map valid path }
{
    if valid {
        return false;
    }
    match path {
        Path::Move(_) => true,
        Path::Line(_) => true,
        Path::Curve(_, _, _) => true,
        Path::Finish => false,
    }
}

// Whether a command is a close, which leaves the hints as they are.
fn is_close(marking: Marking) -> bool
    ensures { result ≡ is_close marking }
{
    matches!(marking, Marking::Close)
}

// Runs `n` command words, the first of which is called word `first`. Their masks are bytes of the script,
// from byte `from` on. The state is its numbers and a list of zones.
fn run_by(
    script: &[u8],
    words: Words,
    first: usize,
    n: usize,
    from: usize,
    gauge: Gauge,
    zones: &[i32; ZONE_NUMBERS],
    lists: &mut KeptLists,
    out: &mut [i32],
) -> Ran
    requires { (n ≤ count_by words) × Runnable script.now (word_by words) first n from }
    ensures { Ended (ran_of (state_in gauge zones.now) (calls_of script.now from
        (commands_of first (word_by words.entry) n)) out.old) result
        out.new }
{
    let mut mask = [255u8; HINT_MASK_SIZE];
    let mut sizes = Sizes::none();
    let mut pen = Pen::new();
    let mut next = 0;
    let mut at = 0;
    // A command says how many words it has, and one that wants a map is read again once it has it.
    while at < n {
        let read = read_by(words, n, at);
        let command = read.command;
        match command {
            Command::Mark(marking) => {
                if is_close(marking) {
                    at = read.next;
                    continue;
                }
                sizes = marked(sizes, script, from, marking, gauge, zones, &mut mask, lists);
                at = read.next;
            }
            Command::Draw(path) => {
                if wants_map(path, sizes.valid) {
                    sizes = sizes.ready(lists, gauge, zones, &mask);
                    continue;
                }
                let scale = gauge.scale;
                let drawn = draw_by_lines(
                    &lists.map,
                    sizes.map,
                    scale,
                    scale,
                    pen,
                    path,
                    &mut out[next..],
                    true,
                );
                let answer = drawn.answer;
                let Ok(count) = answer else {
                    return Ran {
                        answer: Err(Refusal::NoRoom(first + at)),
                        words: next,
                    };
                };
                pen = drawn.pen;
                next += count;
                at = read.next;
            }
        }
    }
    Ran {
        answer: Ok(()),
        words: next,
    }
}

// Runs the `n` command words of a part that starts at word `first` of the script, whose mask bytes
// start at byte `from`.
pub fn run(
    script: &[u8],
    part: &[u8],
    first: usize,
    n: usize,
    from: usize,
    state: HintState,
    out: &mut [i32],
) -> Ran
    requires { (4 * n ≤ length part.now) × Runnable script.now (raw_at part.now) first n from }
    ensures { Ended (ran_of state
        (calls_of script.now from (commands_of first (raw_at part.now) n)) out.old) result
        out.new }
{
    let mut zones = [0i32; ZONE_NUMBERS];
    state.list(&mut zones);
    let mut lists = KeptLists::new();
    run_by(
        script,
        Words::Script(part),
        first,
        n,
        from,
        state.gauge(),
        &zones,
        &mut lists,
        out,
    )
}

// Runs all of some words, which are commands with the masks of some bytes. A state's numbers and its
// zones, listed once, serve any number of runs, and so do the lists that are lent for its hints.
pub fn run_given(
    masks: &[u8],
    words: &[i32],
    gauge: Gauge,
    zones: &[i32; ZONE_NUMBERS],
    lists: &mut KeptLists,
    out: &mut [i32],
) -> Ran
    requires { Runnable masks.now (given_word words.now) 0 (length words.now) 0 }
    ensures { Ended (ran_of (state_in gauge zones.now) (calls_of masks.now 0
        (commands_of 0 (given_word words.now) (length words.now))) out.old) result
        out.new }
{
    run_by(
        masks,
        Words::Given(words),
        0,
        words.len(),
        0,
        gauge,
        zones,
        lists,
        out,
    )
}
