// The map that a script has come to.
ghost use Rattle.std.specs.Prelude.{◌≡◌, Ok};
ghost use Rattle.words.specs.Answers.{first_of};
ghost use Rattle.script.specs.Script.{check_rows, map_at};

use crate::whole::zones_of;
use hintmap::HintMap;
use run::hints_after;
use words::{layout, natural};

// The current map of a script that passes all tests after its first so many commands, or after all
// of them if there are fewer.
pub fn map_after(script: &[u8], commands: usize) -> HintMap
    requires { first_of (check_rows script.now) ≡ Ok tt }
    ensures { result ≡ map_at script.now commands }
{
    let first = natural(script, layout::COMMANDS_START);
    let count = natural(script, layout::COMMANDS_COUNT);
    let masks = natural(script, layout::MASKS_START);
    let hints = hints_after(script, first, count, 4 * masks, zones_of(script), commands);
    hints.map
}
