// Maps built from stems, masks and zones.
ghost use Rattle.std.specs.Prelude.{◌+◌, ◌≤◌};

use crate::{edges, maps};
use build::{Built, build_initial, build_map};
use fixed::Fixed;
use hintmap::HintMap;
use std::io;
use std::io::Read;
use stems::{HintMask, StemHint, Stems};
use zones::HintState;

pub(crate) fn run<R: Read>(rt: &impl Print, input: &mut R) -> io::Result<()> {
    for name in [
        "stem 16 to 80 at scale 2048",
        "stems and zones",
        "em boxes",
        "baselines",
        "crowded stems",
        "narrow counters",
    ] {
        test_tables::run_table(rt, input, name, build_agrees)?;
    }
    Ok(())
}

// A row: a scale and parameters, stems, the initial map's edges, and what two masks make of them.
fn build_agrees(row: &[i32]) -> bool {
    let state = test_tables::state(row);
    let at = test_tables::after_pairs(row, 7);
    let stems = stems_at(row, at);
    let initial = initial_map(state, stems);
    let edges = after_stems(row, at);
    edges::edges_agree(&initial, row, edges)
        && masks_agree(state, stems, initial, row, edges::after_edges(row, edges))
}

// From `at` to the end: a mask and its map's edges, and once more; the stems after both; heights
// that the first map maps.
fn masks_agree(state: HintState, stems: Stems, initial: HintMap, row: &[i32], at: usize) -> bool
    requires { at ≤ 300 }
{
    let first = built(state, mask_at(row, at), stems, initial);
    let next = edges::after_edges(row, at + 2);
    let second = built(state, mask_at(row, next), first.stems, initial);
    let last = edges::after_edges(row, next + 2);
    edges::edges_agree(&first.map, row, at + 2)
        && edges::edges_agree(&second.map, row, next + 2)
        && stems_agree(&second.stems, row, last)
        && edges::heights_agree(first.map, row, after_saved(&second.stems, last))
}

// No row has more than 96 stems, nor a state more than 12 zones.
fn initial_map(state: HintState, stems: Stems) -> HintMap {
    if 96 < stems.count || 12 < state.zone_count {
        return HintMap::new(state.scale);
    }
    build_initial(state, stems)
}

// The same, and no map has more than 96 edges.
fn built(state: HintState, mask: HintMask, stems: Stems, initial: HintMap) -> Built {
    if 96 < stems.count || 96 < initial.len || 12 < state.zone_count {
        return Built {
            map: initial,
            stems,
        };
    }
    build_map(state, mask, stems, initial)
}

// A mask of two bytes.
fn mask_at(row: &[i32], at: usize) -> HintMask
    requires { at ≤ 1000 }
{
    let bytes = [
        test_tables::count(row, at, 255) as u8,
        test_tables::count(row, at + 1, 255) as u8,
    ];
    HintMask::new(&bytes)
}

// The stems: from `at` on their count, and the two ends of each.
fn stems_at(row: &[i32], at: usize) -> Stems
    requires { at ≤ 1000 }
{
    let count = test_tables::count(row, at, 20);
    let none = maps::stem(Fixed::ZERO, Fixed::ZERO);
    let mut stems = Stems {
        list: [none; 96],
        count,
    };
    for i in 0..count {
        let min = test_tables::fixed(row, at + 1 + 2 * i);
        let max = test_tables::fixed(row, at + 2 + 2 * i);
        stems.list[i] = maps::stem(min, max);
    }
    stems
}

// Where the row goes on after the stems.
fn after_stems(row: &[i32], at: usize) -> usize
    requires { at ≤ 1000 }
    ensures { result ≤ at + 41 }
{
    at + 1 + 2 * test_tables::count(row, at, 20)
}

// The stems' saved heights are those from `at` on, three numbers for each.
fn stems_agree(stems: &Stems, row: &[i32], at: usize) -> bool
    requires { at ≤ 1000 }
{
    stems.count <= 96 && (0..stems.count).all(|i| stem_agrees(&stems.list[i], row, at + 3 * i))
}

// Where the row goes on after the saved heights.
fn after_saved(stems: &Stems, at: usize) -> usize
    requires { at ≤ 600 }
    ensures { result ≤ 1000 }
{
    if 96 < stems.count {
        return at;
    }
    at + 3 * stems.count
}

// From `at` on: 1 if the stem is used, and its two saved heights.
fn stem_agrees(stem: &StemHint, row: &[i32], at: usize) -> bool
    requires { at ≤ 2000 }
{
    stem.is_used == test_tables::flag(row, at)
        && stem.ds_min == test_tables::fixed(row, at + 1)
        && stem.ds_max == test_tables::fixed(row, at + 2)
}
