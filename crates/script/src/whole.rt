// Checking and running a script.
ghost use Rattle.std.specs.Prelude.{◌≡◌, [], ◌∷◌, ◌≤◌, ◌<◌, pos, length, Ok};
ghost use Rattle.pen.specs.Records.{written};
ghost use Rattle.words.specs.Answers.{first_of};
ghost use Rattle.run.specs.Run.{ending_of, Ended};
ghost use Rattle.run.specs.Room.{fitted};
ghost use Rattle.script.specs.Script.{check_rows, zones_of, steps_in, script_of, Scripted};

use crate::checking::check_script;
use crate::count::count_records;
use header::read_params;
use run::{Ran, run};
use words::{Answer, Refusal, layout, natural, number};
use zones::HintState;

// The words before the records of a result.
const RESULT_HEADER: usize = 4;

// The zones of a script that passes all tests, made once.
pub(crate) fn zones_of(script: &[u8]) -> HintState
    requires { first_of (check_rows script.now) ≡ Ok tt }
    ensures { result ≡ zones_of script.now }
{
    HintState::new(read_params(script), number(script, layout::SCALE))
}

// The run of such a script, into the words behind the result's header.
fn run_commands(script: &[u8], out: &mut [i32]) -> Ran
    requires { first_of (check_rows script.now) ≡ Ok tt }
    ensures { Ended (ending_of (fitted (length out.old) (steps_in script.now))
        out.old) result out.new }
{
    let first = natural(script, layout::COMMANDS_START);
    let count = natural(script, layout::COMMANDS_COUNT);
    let masks = natural(script, layout::MASKS_START);
    let at = 4 * first;
    run(
        script,
        &script[at..],
        first,
        count,
        4 * masks,
        zones_of(script),
        out,
    )
}

// The first four words of a result.
#[tactic(auto, unfolding(pen::specs::Records::written))]
fn seal(out: &mut [i32], records: u32, words: u32)
    requires { (4 ≤ length out.old) × ((records < 2147483648) × (words < 2147483648)) }
    ensures { out.new ≡ written (pos 1 ∷ pos records ∷ pos 4 ∷ pos words ∷ []) out.old }
{
    let header = [1, records as i32, 4, words as i32];
    out[..header.len()].copy_from_slice(&header);
}

// Runs a script into a lent output.
#[tactic(auto, using(crate::proofs::Results::tested))]
pub fn run_script(script: &[u8], out: &mut [i32]) -> Answer
    ensures { Scripted (script_of script.now out.old) result out.new }
{
    check_script(script)?;
    if out.len() < RESULT_HEADER {
        return Err(Refusal::NoRoom(natural(script, layout::COMMANDS_START)));
    }
    let ran = run_commands(script, &mut out[RESULT_HEADER..]);
    ran.answer?;
    let records = count_records(&out[RESULT_HEADER..], ran.words);
    seal(out, records as u32, ran.words as u32);
    Ok(())
}
