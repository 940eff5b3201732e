// Parameters, masks and kinds of edges in a row.
ghost use Rattle.std.specs.Prelude.{◌≡◌, ◌≤◌};
ghost use Rattle.test_tables.specs.Given.{pair_in, blues_in, params_in, after_pairs_in, state_in, mask_in, kind_number};

use crate::row::{count, fixed, number};
use fixed::Fixed;
use stems::{HintMask, Kind};
use zones::{Blue, Blues, HintParams, HintState};

// The zones of the row's scale and parameters. No row has a scale below 1, where this takes 1.
pub fn state(row: &[i32]) -> HintState
    ensures { result ≡ state_in row.now }
{
    HintState::new(params(row, 7), fixed(row, 1).max(Fixed::EPSILON))
}

// From place 2 on: blue scale, shift, fuzz and group; the counts of blues, other blues, family
// blues and family other blues, each at most so many; the pairs.
pub fn params(row: &[i32], most: usize) -> HintParams
    requires { most ≤ 8 }
    ensures { result ≡ params_in row.now most }
{
    let blues = count(row, 6, most);
    let others = count(row, 7, most);
    let family = count(row, 8, most);
    let family_others = count(row, 9, most);
    let at_others = 10 + 2 * blues;
    let at_family = at_others + 2 * others;
    let at_family_others = at_family + 2 * family;
    HintParams {
        blue_scale: fixed(row, 2),
        blue_shift: fixed(row, 3),
        blue_fuzz: fixed(row, 4),
        language_group: number(row, 5),
        blues: blues_at(row, 10, blues),
        other_blues: blues_at(row, at_others, others),
        family_blues: blues_at(row, at_family, family),
        family_other_blues: blues_at(row, at_family_others, family_others),
    }
}

// Where the row goes on after the pairs.
pub fn after_pairs(row: &[i32], most: usize) -> usize
    requires { most ≤ 8 }
    ensures { result ≡ after_pairs_in row.now most }
{
    let blues = count(row, 6, most) + count(row, 7, most);
    let family = count(row, 8, most) + count(row, 9, most);
    10 + 2 * (blues + family)
}

// So many pairs from `at` on. Numbers of the row fill the places past the count, and an eighth pair
// has none.
fn blues_at(row: &[i32], at: usize, count: usize) -> Blues
    requires { at ≤ 100 }
    ensures { result ≡ blues_in row.now at count }
{
    let pairs = [
        pair_at(row, at),
        pair_at(row, at + 2),
        pair_at(row, at + 4),
        pair_at(row, at + 6),
        pair_at(row, at + 8),
        pair_at(row, at + 10),
        pair_at(row, at + 12),
    ];
    Blues { pairs, count }
}

fn pair_at(row: &[i32], at: usize) -> Blue
    requires { at ≤ 200 }
    ensures { result ≡ pair_in row.now at }
{
    Blue {
        bottom: fixed(row, at),
        top: fixed(row, at + 1),
    }
}

// The mask of a count at `at`, at most 13, and the bytes after it.
pub fn mask(row: &[i32], at: usize) -> HintMask
    requires { at ≤ 1000 }
    ensures { result ≡ mask_in row.now at }
{
    let n = count(row, at, 13);
    let mut bytes = [0u8; 13];
    for i in 0..n {
        bytes[i] = count(row, at + 1 + i, 255) as u8;
    }
    HintMask::new(&bytes[0..n])
}

// The number of a kind of edge.
pub fn kind_number(kind: Kind) -> i32
    ensures { result ≡ kind_number kind }
{
    match kind {
        Kind::Absent => 0,
        Kind::GhostBottom => 1,
        Kind::GhostTop => 2,
        Kind::PairBottom => 3,
        Kind::PairTop => 4,
    }
}
