// '95 edges: a single enters, a pair is dropped' (01, "Marked figures"), with 94 and 96 edges
// beside it.
ghost use Rattle.std.specs.Prelude.{◌≤◌};
ghost use Rattle.stems.specs.Lists.{Whole};
ghost use Rattle.hintmap.specs.Lent.{Lent};

use crate::maps;
use fixed::Fixed;
use hintmap::insert_edges;
use std::io;
use stems::{LINES, StemHint, TAGS};

pub(crate) fn run(rt: &impl Print) -> io::Result<()> {
    let height = Fixed { bits: 200 * 65536 };
    let single = ghost_at(height);
    let pair = maps::stem(height, height.add(Fixed::ONE));
    let few = differs(94, pair, 96) + differs(94, single, 95);
    let one_left = differs(95, pair, 95) + differs(95, single, 96);
    let full = differs(96, pair, 96) + differs(96, single, 96);
    test_tables::counts(rt, b"room for edges", 6, few + one_left + full)
}

// 1 if a map of so many edges has another number of them than expected once the stem comes, or else
// 0.
fn differs(edges: usize, stem: StemHint, expected: usize) -> usize
    ensures { result ≤ 1 }
{
    let mut lines = [0i32; LINES];
    let mut tags = [0u8; TAGS];
    let len = put_ghosts(&mut lines, &mut tags, edges);
    let put = maps::edges_of(stem, 0, Fixed::ONE);
    (len != edges || insert_edges(&mut lines, &mut tags, len, put) != expected) as usize
}

// So many single edges, at 0.0, 1.0 and on, are put into a map with no edges. Gives its length.
fn put_ghosts(lines: &mut [i32; LINES], tags: &mut [u8; TAGS], count: usize) -> usize
    requires { Whole lines.old tags.old }
    ensures { Lent lines.new tags.new result }
{
    let mut len: usize = 0;
    let mut height = Fixed::ZERO;
    for i in 0..count {
        let single = maps::edges_of(ghost_at(height), 0, Fixed::ONE);
        len = insert_edges(lines, tags, len, single);
        height = height.add(Fixed::ONE);
    }
    len
}

// The stem of a bottom ghost.
fn ghost_at(height: Fixed) -> StemHint {
    maps::stem(height.add(Fixed { bits: 21 * 65536 }), height)
}
