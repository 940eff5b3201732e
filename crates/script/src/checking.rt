// All tests of a script, in 01's order.
ghost use Rattle.std.specs.Prelude.{◌≡◌};
ghost use Rattle.words.specs.Answers.{first_of};
ghost use Rattle.script.specs.Script.{check_rows};

use commands::check_commands;
use header::{check_header, check_params};
use words::{Answer, layout, natural};

// The first fault of a script.
#[tactic(auto, using(crate::proofs::Tests::tests_in_turn))]
pub fn check_script(script: &[u8]) -> Answer
    ensures { result ≡ first_of (check_rows script.now) }
{
    check_header(script)?;
    check_params(script)?;
    let first = natural(script, layout::COMMANDS_START);
    let count = natural(script, layout::COMMANDS_COUNT);
    let bytes = natural(script, layout::MASKS_COUNT);
    check_commands(script, first, count, bytes)
}
