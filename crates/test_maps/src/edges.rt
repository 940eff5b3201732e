// A map's edges and the heights that it maps, against a row.
ghost use Rattle.std.specs.Prelude.{◌+◌, ◌≤◌};
ghost use Rattle.stems.specs.Edge.{max_hints};

use fixed::Fixed;
use hintmap::{HintMap, transform};
use stems::{Hint, LINES, TAGS};

// From `at` on: the count of edges, and seven numbers for each.
pub(crate) fn edges_agree(map: &HintMap, row: &[i32], at: usize) -> bool
    requires { at ≤ 1000 }
{
    let count = test_tables::count(row, at, 20);
    map.len == count && (0..count).all(|i| edge_agrees(&map.edges[i], row, at + 1 + 7 * i))
}

// Where the row goes on after the edges.
pub(crate) fn after_edges(row: &[i32], at: usize) -> usize
    requires { at ≤ 1000 }
    ensures { result ≤ at + 141 }
{
    at + 1 + 7 * test_tables::count(row, at, 20)
}

// From `at` on: the kind, 1 if the edge is locked, 1 if it is synthetic, its stem's number, height,
// device height and scale.
fn edge_agrees(edge: &Hint, row: &[i32], at: usize) -> bool
    requires { at ≤ 2000 }
{
    test_tables::kind_number(edge.kind) == test_tables::number(row, at)
        && edge.locked == test_tables::flag(row, at + 1)
        && edge.synthetic == test_tables::flag(row, at + 2)
        && edge.index as i32 == test_tables::number(row, at + 3)
        && edge.cs_coord == test_tables::fixed(row, at + 4)
        && edge.ds_coord == test_tables::fixed(row, at + 5)
        && edge.scale == test_tables::fixed(row, at + 6)
}

// From `at` to the end: a count of heights, and for each the height and where the map puts it. No map
// here has more than 96 edges.
pub(crate) fn heights_agree(map: HintMap, row: &[i32], at: usize) -> bool
    requires { at ≤ 1000 }
{
    let count = test_tables::count(row, at, 20);
    let len = map.len;
    if row.len() != at + 1 + 2 * count || 96 < len {
        return false;
    }
    let mut lines = [0i32; LINES];
    let mut tags = [0u8; TAGS];
    map.list(&mut lines, &mut tags);
    (0..count).all(|i| height_agrees(&lines, len, map.scale, row, at + 1 + 2 * i))
}

fn height_agrees(lines: &[i32; LINES], len: usize, scale: Fixed, row: &[i32], at: usize) -> bool
    requires { (len ≤ max_hints) × (at ≤ 2000) }
{
    let device = transform(lines, len, scale, test_tables::fixed(row, at), false);
    device == test_tables::fixed(row, at + 1)
}
