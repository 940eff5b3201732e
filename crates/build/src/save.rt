// The heights that a map saves in its stems.
ghost use Rattle.std.specs.Prelude.{◌≡◌, ◌≤◌, length};
ghost use Rattle.stems.specs.Edge.{max_hints};
ghost use Rattle.build.specs.Build.{saved_stem};
ghost use Rattle.build.specs.Made.{SavedIn};

use stems::{Hint, LINES, MAX_HINTS, STEM_NUMBERS, StemHint, TAGS, edge_at, put_stem, stem_at};

// From `build`: a stem that is used, with the height of one edge saved.
fn saved(stem: StemHint, edge: Hint) -> StemHint
    ensures { result ≡ saved_stem edge stem }
{
    if edge.is_top() {
        StemHint {
            is_used: true,
            ds_max: edge.ds_coord,
            ..stem
        }
    } else {
        StemHint {
            is_used: true,
            ds_min: edge.ds_coord,
            ..stem
        }
    }
}

// From `build`: the heights of all edges are saved, each in its stem. No edge that a stem has is out
// of range.
pub(crate) fn save_all(
    stems: &mut [i32; STEM_NUMBERS],
    lines: &[i32; LINES],
    tags: &[u8; TAGS],
    len: usize,
)
    requires { (length stems.old ≡ 480) × (len ≤ max_hints) }
    ensures { SavedIn stems.old lines.now tags.now len stems.new }
{
    for i in 0..len {
        let edge = edge_at(lines, tags, i);
        if edge.is_synthetic() {
            continue;
        }
        let k = edge.index as usize;
        if k < MAX_HINTS {
            put_stem(stems, k, saved(stem_at(stems, k), edge));
        }
    }
}
