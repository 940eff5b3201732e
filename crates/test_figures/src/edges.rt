// Stems' edges. The expected values are those of model/stems.py.
ghost use Rattle.std.specs.Prelude.{◌≤◌};

use std::io;
use std::io::Read;
use stems::{Hint, Side, StemHint};

pub(crate) fn run<R: Read>(rt: &impl Print, input: &mut R) -> io::Result<()> {
    test_tables::run_table(rt, input, "edges", edges_agree)
}

// A row: a stem, its number and a scale; of the bottom edge and of the top edge the kind, 1 if it
// is locked, the height and the device height.
fn edges_agree(row: &[i32]) -> bool {
    let stem = StemHint {
        is_used: test_tables::flag(row, 3),
        min: test_tables::fixed(row, 1),
        max: test_tables::fixed(row, 2),
        ds_min: test_tables::fixed(row, 4),
        ds_max: test_tables::fixed(row, 5),
    };
    let index = test_tables::count(row, 6, 95) as u8;
    let scale = test_tables::fixed(row, 7);
    edge_agrees(Hint::setup(stem, index, scale, Side::Bottom), row, 8)
        && edge_agrees(Hint::setup(stem, index, scale, Side::Top), row, 12)
}

// The edge is of the row's stem, and is as the row says from `at` on.
fn edge_agrees(edge: Hint, row: &[i32], at: usize) -> bool
    requires { at ≤ 12 }
{
    edge.index as i32 == test_tables::number(row, 6)
        && edge.scale == test_tables::fixed(row, 7)
        && !edge.synthetic
        && test_tables::kind_number(edge.kind) == test_tables::number(row, at)
        && edge.locked == test_tables::flag(row, at + 1)
        && edge.cs_coord == test_tables::fixed(row, at + 2)
        && edge.ds_coord == test_tables::fixed(row, at + 3)
}
