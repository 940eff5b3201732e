// Maps built edge by edge.
ghost use Rattle.std.specs.Prelude.{◌+◌, ◌≤◌};
ghost use Rattle.stems.specs.Edge.{max_hints};
ghost use Rattle.stems.specs.Lists.{Whole};
ghost use Rattle.hintmap.specs.Lent.{Lent};

use crate::edges;
use fixed::Fixed;
use hintmap::{Edges, HintMap, insert_edges};
use std::io;
use std::io::Read;
use stems::{Hint, LINES, Side, StemHint, TAGS};

pub(crate) fn run<R: Read>(rt: &impl Print, input: &mut R) -> io::Result<()> {
    test_tables::run_table(rt, input, "maps edge by edge", map_agrees)
}

// A row: a scale, 1 if the initial map is given, the stems of that map and those of the map; the
// map's edges, and heights.
fn map_agrees(row: &[i32]) -> bool {
    let scale = test_tables::fixed(row, 1);
    let none = [0i32; LINES];
    let mut base = [0i32; LINES];
    let mut base_tags = [0u8; TAGS];
    let size = put_stems(&mut base, &mut base_tags, row, 3, scale, &none, 0, false);
    let then = after_stems(row, 3);
    let given = test_tables::flag(row, 2);
    let mut lines = [0i32; LINES];
    let mut tags = [0u8; TAGS];
    let len = put_stems(&mut lines, &mut tags, row, then, scale, &base, size, given);
    let at = after_stems(row, then);
    let map = HintMap::from_lists(&lines, &tags, len, scale);
    edges::edges_agree(&map, row, at) && edges::heights_agree(map, row, edges::after_edges(row, at))
}

// The stems are put into a map with no edges: from `at` on their count, and five numbers for each.
// Gives the map's length.
fn put_stems(
    lines: &mut [i32; LINES],
    tags: &mut [u8; TAGS],
    row: &[i32],
    at: usize,
    scale: Fixed,
    initial: &[i32; LINES],
    size: usize,
    given: bool,
) -> usize
    requires { Whole lines.old tags.old × ((at ≤ 1000) × (size ≤ max_hints)) }
    ensures { Lent lines.new tags.new result }
{
    let count = test_tables::count(row, at, 20);
    let mut len: usize = 0;
    for i in 0..count {
        let stem = stem_at(row, at + 1 + 5 * i);
        let edges = edges_of(stem, i as u8, scale);
        len = put_edges(lines, tags, len, edges, scale, initial, size, given);
    }
    len
}

// Where the row goes on after the stems.
fn after_stems(row: &[i32], at: usize) -> usize
    requires { at ≤ 1000 }
    ensures { result ≤ at + 101 }
{
    at + 1 + 5 * test_tables::count(row, at, 20)
}

fn stem_at(row: &[i32], at: usize) -> StemHint
    requires { at ≤ 2000 }
{
    StemHint {
        min: test_tables::fixed(row, at),
        max: test_tables::fixed(row, at + 1),
        is_used: test_tables::flag(row, at + 2),
        ds_min: test_tables::fixed(row, at + 3),
        ds_max: test_tables::fixed(row, at + 4),
    }
}

// A stem that is not used.
pub(crate) fn stem(min: Fixed, max: Fixed) -> StemHint {
    StemHint {
        is_used: false,
        min,
        max,
        ds_min: Fixed::ZERO,
        ds_max: Fixed::ZERO,
    }
}

// A stem's edges.
pub(crate) fn edges_of(stem: StemHint, index: u8, scale: Fixed) -> Edges {
    let bottom = Hint::setup(stem, index, scale, Side::Bottom);
    let top = Hint::setup(stem, index, scale, Side::Top);
    Edges::choose(stem.shape(), bottom, top)
}

// Edges are put in, or dropped. Where an initial map is given, its lines place them again. Gives the
// new length.
fn put_edges(
    lines: &mut [i32; LINES],
    tags: &mut [u8; TAGS],
    len: usize,
    edges: Edges,
    scale: Fixed,
    initial: &[i32; LINES],
    size: usize,
    given: bool,
) -> usize
    requires { Lent lines.old tags.old len × (size ≤ max_hints) }
    ensures { Lent lines.new tags.new result }
{
    if given {
        return insert_edges(lines, tags, len, edges.placed(initial, size, scale, scale));
    }
    insert_edges(lines, tags, len, edges)
}
