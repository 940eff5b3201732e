// The edges that no stem has: the em box and the baseline.
ghost use Rattle.std.specs.Prelude.{◌≡◌, ◌≤◌};
ghost use Rattle.stems.specs.Edge.{max_hints};
ghost use Rattle.stems.specs.Lists.{Whole};
ghost use Rattle.hintmap.specs.Lent.{Lent};
ghost use Rattle.build.specs.Ghosts.{ghost_at, em_bottom, em_top};
ghost use Rattle.build.specs.Made.{Boxed, Uncovered, Baselined};

use fixed::Fixed;
use hintmap::{Edges, insert_edges};
use stems::{Hint, Kind, LINES, TAGS, height_at};

// The ghosts of the em box lie one bit outside of it, so that a zone or a stem at its edge is none
// of them.
const BOX_BOTTOM: Fixed = Fixed { bits: -0x78_0001 };

const BOX_TOP: Fixed = Fixed { bits: 0x370_0001 };

// A locked, synthetic edge.
fn ghost_at(kind: Kind, height: Fixed, device: Fixed, scale: Fixed) -> Hint
    ensures { result ≡ ghost_at kind height device scale }
{
    Hint {
        kind,
        locked: true,
        synthetic: true,
        index: 0,
        cs_coord: height,
        ds_coord: device,
        scale,
    }
}

// From `build`: the em box's bottom, one bit under −120.0, half a pixel under its rounded height.
#[tactic(auto, unfolding(crate::specs::Ghosts::em_bottom))]
fn em_bottom(scale: Fixed) -> Hint
    ensures { result ≡ em_bottom scale }
{
    let device = BOX_BOTTOM.mul(scale).round().sub(Fixed::HALF);
    ghost_at(Kind::GhostBottom, BOX_BOTTOM, device, scale)
}

// From `build`: the em box's top, one bit over 880.0, half a pixel over its rounded height.
#[tactic(auto, unfolding(crate::specs::Ghosts::em_top))]
fn em_top(scale: Fixed) -> Hint
    ensures { result ≡ em_top scale }
{
    let device = BOX_TOP.mul(scale).round().add(Fixed::HALF);
    ghost_at(Kind::GhostTop, BOX_TOP, device, scale)
}

// From `build`: the em box's ghosts are put into a map with no edges, where it is asked for. They are
// locked, so that no initial map moves them. Gives the map's length.
pub(crate) fn put_em_box(
    lines: &mut [i32; LINES],
    tags: &mut [u8; TAGS],
    wanted: bool,
    scale: Fixed,
) -> usize
    requires { Whole lines.old tags.old }
    ensures { Boxed wanted scale result lines.new tags.new }
{
    if wanted {
        let bottom = Edges::One(em_bottom(scale));
        let top = Edges::One(em_top(scale));
        let one = insert_edges(lines, tags, 0, bottom);
        insert_edges(lines, tags, one, top)
    } else {
        0
    }
}

// From `build`: no edge, or all above the baseline, or all below.
fn is_uncovered(lines: &[i32; LINES], len: usize) -> bool
    requires { len ≤ max_hints }
    ensures { Uncovered lines.now len result }
{
    len == 0 || Fixed::ZERO < height_at(lines, 0) || height_at(lines, len - 1) < Fixed::ZERO
}

// From `build`: a glyph whose hints leave the baseline out has it locked in the initial map all the
// same. Gives the new length.
pub(crate) fn put_baseline(
    lines: &mut [i32; LINES],
    tags: &mut [u8; TAGS],
    len: usize,
    scale: Fixed,
) -> usize
    requires { Lent lines.old tags.old len }
    ensures { Baselined lines.old tags.old len scale result lines.new
        tags.new }
{
    if is_uncovered(lines, len) {
        let baseline = ghost_at(Kind::GhostBottom, Fixed::ZERO, Fixed::ZERO, scale);
        insert_edges(lines, tags, len, Edges::One(baseline))
    } else {
        len
    }
}
