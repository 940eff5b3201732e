// Captures of stems' edges by zones. The expected values are those of model/zones.py.
ghost use Rattle.std.specs.Prelude.{◌≤◌};

use fixed::Fixed;
use std::io;
use std::io::Read;
use stems::{Hint, Side, StemHint};
use zones::HintState;

pub(crate) fn run<R: Read>(rt: &impl Print, input: &mut R) -> io::Result<()> {
    test_tables::run_table(rt, input, "captures", captures_agree)
}

// A row: a scale and parameters, a count of stems, and to the end seven numbers for each.
fn captures_agree(row: &[i32]) -> bool {
    let state = test_tables::state(row);
    let at = test_tables::after_pairs(row, 7);
    let stems = test_tables::count(row, at, 20);
    row.len() == at + 1 + 7 * stems
        && (0..stems).all(|i| capture_agrees(&state, row, at + 1 + 7 * i))
}

// From `at` on: a stem's ends, 1 if it is captured, and of the bottom edge and of the top edge 1 if
// it is locked and the device height.
fn capture_agrees(state: &HintState, row: &[i32], at: usize) -> bool
    requires { at ≤ 300 }
{
    if 12 < state.zone_count {
        return false;
    }
    let stem = StemHint {
        is_used: false,
        min: test_tables::fixed(row, at),
        max: test_tables::fixed(row, at + 1),
        ds_min: Fixed::ZERO,
        ds_max: Fixed::ZERO,
    };
    let bottom = Hint::setup(stem, 0, state.scale, Side::Bottom);
    let top = Hint::setup(stem, 0, state.scale, Side::Top);
    let after = state.capture(bottom, top);
    after.captured == test_tables::flag(row, at + 2)
        && edge_agrees(after.bottom, row, at + 3)
        && edge_agrees(after.top, row, at + 5)
}

fn edge_agrees(edge: Hint, row: &[i32], at: usize) -> bool
    requires { at ≤ 400 }
{
    edge.locked == test_tables::flag(row, at) && edge.ds_coord == test_tables::fixed(row, at + 1)
}
