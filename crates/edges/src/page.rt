// The page.
ghost use Rattle.std.specs.Prelude.{◌≤◌, length};
ghost use Rattle.decimal.specs.Decimal.{Put};
ghost use Rattle.edges.specs.Page.{map_text, page_of, asked_page};

use crate::argument::{is_number, number_in};
use crate::counts::{put_refusal, put_summary};
use crate::line::{put_line, put_text};
use hintmap::HintMap;
use listing::{EdgeRecord, summarize};
use script::{check_script, map_after};

// Puts the edges of a map, and their counts.
fn put_map(out: &mut [u8], map: HintMap) -> usize
    requires { 16384 ≤ length out.old }
    ensures { Put (map_text map) 0 out.old result out.new }
{
    let summary = summarize(map);
    let mut next = 0;
    for i in 0..summary.edges {
        next = put_line(out, next, EdgeRecord::of(map.edges[i]));
    }
    put_summary(out, next, summary)
}

// Puts the map of a script after so many commands, or why the script is refused.
pub(crate) fn page(script: &[u8], commands: usize, out: &mut [u8]) -> usize
    requires { 16384 ≤ length out.old }
    ensures { Put (page_of script.now commands) 0 out.old result out.new }
{
    if let Err(refusal) = check_script(script) {
        return put_refusal(out, refusal);
    }
    put_map(out, map_after(script, commands))
}

// Puts the page for an argument, or that it is none.
pub(crate) fn page_for(script: &[u8], text: &[u8], out: &mut [u8]) -> usize
    requires { 16384 ≤ length out.old }
    ensures { Put (asked_page script.now text.now) 0 out.old result out.new }
{
    if !is_number(text) {
        return put_text(out, 0, "the argument is a number of commands\n");
    }
    page(script, number_in(text), out)
}
