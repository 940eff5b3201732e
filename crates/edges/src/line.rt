// The line of an edge.
ghost use Rattle.std.specs.Prelude.{◌+◌, ◌≤◌, length};
ghost use Rattle.decimal.specs.Decimal.{Put};
ghost use Rattle.edges.specs.Page.{kind_text, stem_text, end_text, line_of};

use decimal::{put_decimal, put_number};
use listing::{EdgeRecord, SYNTHETIC};
use stems::Kind;

// Puts some text.
pub(crate) fn put_text(out: &mut [u8], at: usize, text: &str) -> usize
    requires { at + length text.now ≤ length out.old }
    ensures { Put text.now at out.old result out.new }
{
    decimal::put_text(out, at, text.as_bytes())
}

// Puts the name of a kind.
fn put_kind(out: &mut [u8], at: usize, kind: Kind) -> usize
    requires { at + length (kind_text kind) ≤ length out.old }
    ensures { Put (kind_text kind) at out.old result out.new }
{
    match kind {
        Kind::Absent => put_text(out, at, "absent"),
        Kind::GhostBottom => put_text(out, at, "ghost bottom"),
        Kind::GhostTop => put_text(out, at, "ghost top"),
        Kind::PairBottom => put_text(out, at, "pair bottom"),
        Kind::PairTop => put_text(out, at, "pair top"),
    }
}

// Puts whose edge it is.
fn put_stem(out: &mut [u8], at: usize, stem: u8) -> usize
    requires { at + length (stem_text stem) ≤ length out.old }
    ensures { Put (stem_text stem) at out.old result out.new }
{
    if stem == SYNTHETIC {
        return put_text(out, at, " of no stem");
    }
    let next = put_text(out, at, " of stem ");
    put_number(out, next, stem as u32)
}

// Puts whether it is locked, and ends the line.
pub(crate) fn put_end(out: &mut [u8], at: usize, locked: bool) -> usize
    requires { at + length (end_text locked) ≤ length out.old }
    ensures { Put (end_text locked) at out.old result out.new }
{
    if locked {
        return put_text(out, at, ", locked\n");
    }
    put_text(out, at, "\n")
}

// Puts the line of an edge.
pub(crate) fn put_line(out: &mut [u8], at: usize, edge: EdgeRecord) -> usize
    requires { at + length (line_of edge) ≤ length out.old }
    ensures { Put (line_of edge) at out.old result out.new }
{
    let units = put_decimal(out, at, edge.height);
    let middle = put_text(out, units, " units at ");
    let pixels = put_decimal(out, middle, edge.device);
    let next = put_text(out, pixels, " pixels: ");
    let named = put_kind(out, next, edge.kind);
    let owned = put_stem(out, named, edge.stem);
    put_end(out, owned, edge.locked)
}
