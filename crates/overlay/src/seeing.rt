// The look itself.
ghost use Rattle.overlay.specs.Seen.{seen_of, Sees};

use crate::answer::{SeenAnswer, seen_as};
use listing::list_words;
use script::{check_script, map_after};

// Lists the edges of the map that a script has after its first so many commands, as words.
#[tactic(auto, unfolding(crate::specs::Seen::seen_of))]
pub fn see_edges(script: &[u8], commands: usize, list: &mut [i32]) -> SeenAnswer
    ensures { Sees (seen_of script.now commands list.old) result list.new }
{
    check_script(script)?;
    seen_as(list_words(map_after(script, commands), list))
}
