// Lines that hold numbers behind their names.
ghost use Rattle.std.specs.Prelude.{◌++◌, ◌+◌, ◌≤◌, ◌<◌, length, Err};
ghost use Rattle.decimal.specs.Decimal.{Put, number_text};
ghost use Rattle.edges.specs.Page.{summary_line, refusal_line};

use crate::line::{put_end, put_text};
use decimal::put_number;
use listing::Summary;
use words::Refusal;

// 2^32: a place is put by its low 32 bits.
const WORD: usize = 4294967296;

// Puts a number behind its name.
fn put_count(out: &mut [u8], at: usize, name: &str, n: usize) -> usize
    requires { (n < 4294967296) × (at + length (name.now ++ number_text n) ≤ length out.old) }
    ensures { Put (name.now ++ number_text n) at out.old result out.new }
{
    let next = put_text(out, at, name);
    put_number(out, next, n as u32)
}

// Puts the line that counts the edges of a map.
pub(crate) fn put_summary(out: &mut [u8], at: usize, summary: Summary) -> usize
    requires { ((summary.edges ≤ 96) × ((summary.pairs ≤ 96) × ((summary.ghosts ≤ 96) × (summary.locked ≤ 96)))) ×
        (at + length (summary_line summary) ≤ length out.old) }
    ensures { Put (summary_line summary) at out.old result out.new }
{
    let edges = put_count(out, at, "edges ", summary.edges);
    let pairs = put_count(out, edges, ", pairs ", summary.pairs);
    let ghosts = put_count(out, pairs, ", ghosts ", summary.ghosts);
    let locked = put_count(out, ghosts, ", locked ", summary.locked);
    put_end(out, locked, false)
}

// Puts why a script is refused.
pub(crate) fn put_refusal(out: &mut [u8], refusal: Refusal) -> usize
    requires { 100 ≤ length out.old }
    ensures { Put (refusal_line (Err refusal)) 0 out.old result out.new }
{
    let number = put_count(out, 0, "refused: number ", refusal.code() as usize);
    let place = put_count(out, number, ", place ", refusal.place() % WORD);
    put_end(out, place, false)
}
