// The mapping of a height by a map's lines.
ghost use Rattle.std.specs.Prelude.{◌<◌, ◌≤◌};
ghost use Rattle.stems.specs.Edge.{max_hints};
ghost use Rattle.hintmap.specs.Lent.{Rises, Rising, Reaches, Maps};

use fixed::Fixed;
use stems::{LINES, device_at, height_at, scale_at};

// How many edges behind the first are at or below a height, up to the first that is not.
fn reached(lines: &[i32; LINES], len: usize, height: Fixed) -> usize
    requires { (0 < len) × (len ≤ max_hints) }
    ensures { (result < len) × Reaches lines.now len height result }
{
    for next in 1..len {
        if height < height_at(lines, next) {
            return next - 1;
        }
    }
    len - 1
}

// The same where heights rise: those at or below the height come before all others, so counting them
// finds where they end. Heights lie in a row, and this count takes several at a time, where
// `filter(..).count()` takes one.
fn counted(lines: &[i32; LINES], len: usize, height: Fixed) -> usize
    requires { (0 < len) × ((len ≤ max_hints) × Rises lines.now len) }
    ensures { (result < len) × Reaches lines.now len height result }
{
    let mut count: u32 = 0;
    for i in 1..len {
        if height_at(lines, i) <= height {
            count += 1;
        }
    }
    count as usize
}

// The edge that serves a height. Heights rise in every map of a run (demand 3); a map by value and an
// initial map that is lent need not have that order.
fn serving(lines: &[i32; LINES], len: usize, height: Fixed, in_order: bool) -> usize
    requires { (0 < len) × ((len ≤ max_hints) × Rising in_order lines.now len) }
    ensures { (result < len) × Reaches lines.now len height result }
{
    if in_order {
        counted(lines, len, height)
    } else {
        reached(lines, len, height)
    }
}

// Ports `HintMap::transform`: upward from the first edge, past each next one that is at or below the
// height. There the Rust walks down again, which never takes a step. `in_order`: whether the heights
// are known to rise.
pub fn transform(
    lines: &[i32; LINES],
    len: usize,
    scale: Fixed,
    height: Fixed,
    in_order: bool,
) -> Fixed
    requires { (len ≤ max_hints) × Rising in_order lines.now len }
    ensures { Maps lines.now len scale height result }
{
    if len == 0 {
        return height.mul(scale);
    }
    let i = serving(lines, len, height, in_order);
    let over = height.sub(height_at(lines, i));
    if height < height_at(lines, i) {
        return over.mul(scale).add(device_at(lines, i));
    }
    over.mul(scale_at(lines, i)).add(device_at(lines, i))
}
