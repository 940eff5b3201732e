// The edges are listed, and what comes of it is compared with what is stored.
ghost use Rattle.std.specs.Prelude.{◌≡◌, ◌*◌, ◌≤◌, length};
ghost use Rattle.overlay.specs.Seen.{seen_of};
ghost use Rattle.test_edges.specs.Judging.{command_count, same_summary, same_answer, verdict_of};

use crate::row;
use listing::Summary;
use overlay::{SeenAnswer, code, place, see_edges, summary};
use test_tables::{Difference, judge};
use words::natural;

// Lists the edges.
pub(crate) fn judged(
    head: &[u8],
    script: &[u8],
    stored: &[u8],
    list: &mut [i32],
) -> Option<Difference>
    requires { (40 ≤ length head.now) × (4 * length list.old ≤ length stored.now) }
    ensures { result ≡ verdict_of head.now stored.now
        (seen_of script.now (command_count head.now) list.old) }
{
    let answer = see_edges(script, commands(head), list);
    judge(same_answer(head, answer), list, stored)
}

pub(crate) fn commands(head: &[u8]) -> usize
    requires { 40 ≤ length head.now }
    ensures { result ≡ command_count head.now }
{
    natural(head, row::COMMANDS) + 4294967296 * natural(head, row::COMMANDS_HIGH)
}

fn same_answer(head: &[u8], answer: SeenAnswer) -> bool
    requires { 40 ≤ length head.now }
    ensures { result ≡ same_answer head.now answer }
{
    code(answer) as usize == natural(head, row::NUMBER)
        && place(answer) == natural(head, row::PLACE)
        && same_summary(head, summary(answer))
}

pub(crate) fn same_summary(head: &[u8], summary: Summary) -> bool
    requires { 40 ≤ length head.now }
    ensures { result ≡ same_summary head.now summary }
{
    summary.edges == natural(head, row::EDGES)
        && summary.pairs == natural(head, row::PAIRS)
        && summary.ghosts == natural(head, row::GHOSTS)
        && summary.locked == natural(head, row::LOCKED)
}
