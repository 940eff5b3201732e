// Placing the edges of stems.
ghost use Rattle.std.specs.Prelude.{◌≡◌, ◌<◌, ◌≤◌};
ghost use Rattle.stems.specs.Edge.{max_hints};
ghost use Rattle.stems.specs.Lists.{stem_in, stems_in};
ghost use Rattle.zones.specs.Numbers.{state_in};
ghost use Rattle.hintmap.specs.Lent.{Lent};
ghost use Rattle.build.specs.Place.{prepared_of};
ghost use Rattle.build.specs.Made.{Unplaced, LockedOne, Locked, FreedOne, Freed};

use fixed::Fixed;
use hintmap::{Edges, insert_edges};
use stems::{
    HINT_MASK_SIZE, Hint, LINES, STEM_NUMBERS, Side, StemHint, TAGS, clear_active, stem_at,
    take_first,
};
use zones::{Captured, Gauge, ZONE_NUMBERS};

// From `build`: a stem's edges, and whether they are locked or captured.
#[tactic(auto, unfolding(crate::specs::Place::prepared_of))]
fn prepared(gauge: Gauge, zones: &[i32; ZONE_NUMBERS], stem: StemHint, index: u8) -> Captured
    ensures { result ≡ prepared_of (state_in gauge zones.now) stem index }
{
    let bottom = Hint::setup(stem, index, gauge.scale, Side::Bottom);
    let top = Hint::setup(stem, index, gauge.scale, Side::Top);
    if bottom.is_locked() || top.is_locked() {
        Captured {
            captured: true,
            bottom,
            top,
        }
    } else {
        gauge.capture_by(zones, bottom, top)
    }
}

// From `build`: the turn of an active stem in the first round. If it is locked or captured it is put
// in, and handled even if it is dropped: it is cleared in the mask. Gives the new length.
fn put_locked(
    lines: &mut [i32; LINES],
    tags: &mut [u8; TAGS],
    len: usize,
    rest: &mut [u8; HINT_MASK_SIZE],
    gauge: Gauge,
    zones: &[i32; ZONE_NUMBERS],
    stems: &[i32; STEM_NUMBERS],
    i: usize,
) -> usize
    requires { Lent lines.old tags.old len × Unplaced rest.old i }
    ensures { LockedOne (state_in gauge zones.now) (stem_in stems.now i) i
        lines.old tags.old len rest.old result
        lines.new tags.new rest.new }
{
    let stem = stem_at(stems, i);
    let Captured {
        captured,
        bottom,
        top,
    } = prepared(gauge, zones, stem, i as u8);
    if !captured {
        return len;
    }
    clear_active(rest, i);
    insert_edges(lines, tags, len, Edges::choose(stem.shape(), bottom, top))
}

// From `build`: the first round over the stems. It goes from one active stem to the next by a mask of
// its own, since what is cleared in `rest` is handled. The next is taken before the present one is
// put in, so that it does not wait for that. Gives the new length.
pub(crate) fn place_locked(
    lines: &mut [i32; LINES],
    tags: &mut [u8; TAGS],
    start: usize,
    rest: &mut [u8; HINT_MASK_SIZE],
    gauge: Gauge,
    zones: &[i32; ZONE_NUMBERS],
    stems: &[i32; STEM_NUMBERS],
    count: usize,
) -> usize
    requires { Lent lines.old tags.old start × (count ≤ max_hints) }
    ensures { Locked (state_in gauge zones.now) (stems_in stems.now count)
        lines.old tags.old start rest.old result
        lines.new tags.new rest.new }
{
    let mut len = start;
    let mut active = *rest;
    let mut next = take_first(&mut active);
    while next < count {
        let i = next;
        next = take_first(&mut active);
        len = put_locked(lines, tags, len, rest, gauge, zones, stems, i);
    }
    len
}

// From `build`: the turn of an active stem in the second round, where the initial map places it again.
// Gives the new length.
fn put_free(
    lines: &mut [i32; LINES],
    tags: &mut [u8; TAGS],
    len: usize,
    scale: Fixed,
    stems: &[i32; STEM_NUMBERS],
    i: usize,
    initial: &[i32; LINES],
    size: usize,
    base: Fixed,
) -> usize
    requires { Lent lines.old tags.old len × ((i < max_hints) × (size ≤ max_hints)) }
    ensures { FreedOne scale (stem_in stems.now i) i lines.old tags.old len
        initial.now size base result lines.new tags.new }
{
    let stem = stem_at(stems, i);
    let bottom = Hint::setup(stem, i as u8, scale, Side::Bottom);
    let top = Hint::setup(stem, i as u8, scale, Side::Top);
    let edges = Edges::choose(stem.shape(), bottom, top);
    insert_edges(lines, tags, len, edges.placed(initial, size, base, scale))
}

// From `build`: the second round, over the stems that are left, as the first goes. It is a walk of its
// own, as its turn takes what the first does not and leaves `rest`. Gives the new length.
pub(crate) fn place_free(
    lines: &mut [i32; LINES],
    tags: &mut [u8; TAGS],
    start: usize,
    rest: &[u8; HINT_MASK_SIZE],
    scale: Fixed,
    stems: &[i32; STEM_NUMBERS],
    count: usize,
    initial: &[i32; LINES],
    size: usize,
    base: Fixed,
) -> usize
    requires { Lent lines.old tags.old start × ((count ≤ max_hints) × (size ≤ max_hints)) }
    ensures { Freed scale (stems_in stems.now count) lines.old tags.old start
        rest.now initial.now size base result lines.new tags.new }
{
    let mut len = start;
    let mut left = *rest;
    let mut next = take_first(&mut left);
    while next < count {
        let i = next;
        next = take_first(&mut left);
        len = put_free(lines, tags, len, scale, stems, i, initial, size, base);
    }
    len
}
