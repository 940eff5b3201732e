// Zones. The expected values are those of model/zones.py.
ghost use Rattle.std.specs.Prelude.{◌≤◌};

use std::io;
use std::io::Read;
use zones::{BlueZone, HintState};

pub(crate) fn run<R: Read>(rt: &impl Print, input: &mut R) -> io::Result<()> {
    test_tables::run_table(rt, input, "zone lists", state_agrees)?;
    test_tables::run_table(rt, input, "zones by family", state_agrees)?;
    test_tables::run_table(rt, input, "zones by scale", state_agrees)
}

// A row: a scale and parameters; 1 for em-box hints, 1 for suppression, boost, blue scale, and the
// zones.
fn state_agrees(row: &[i32]) -> bool {
    let state = test_tables::state(row);
    let at = test_tables::after_pairs(row, 7);
    zones_agree(&state, row, at + 4)
        && state.do_em_box_hints == test_tables::flag(row, at)
        && state.suppress_overshoot == test_tables::flag(row, at + 1)
        && state.boost == test_tables::fixed(row, at + 2)
        && state.blue_scale == test_tables::fixed(row, at + 3)
}

// From `at` to the end: the count of zones, and five numbers for each.
fn zones_agree(state: &HintState, row: &[i32], at: usize) -> bool
    requires { at ≤ 70 }
{
    let count = test_tables::count(row, at, 12);
    state.zone_count == count
        && row.len() == at + 1 + 5 * count
        && (0..count).all(|i| state.zones[i] == zone_at(row, at + 1 + 5 * i))
}

fn zone_at(row: &[i32], at: usize) -> BlueZone
    requires { at ≤ 130 }
{
    BlueZone {
        is_bottom: test_tables::flag(row, at),
        cs_bottom_edge: test_tables::fixed(row, at + 1),
        cs_top_edge: test_tables::fixed(row, at + 2),
        cs_flat_edge: test_tables::fixed(row, at + 3),
        ds_flat_edge: test_tables::fixed(row, at + 4),
    }
}
