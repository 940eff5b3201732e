// The commands that write nothing, and the masks that they name.
ghost use Rattle.std.specs.Prelude.{◌≡◌, ◌+◌, ◌≤◌, length, take, drop};
ghost use Rattle.zones.specs.Numbers.{state_in};
ghost use Rattle.stems.specs.Edge.{max_hints};
ghost use Rattle.build.specs.Made.{NoteRoom};
ghost use Rattle.run.specs.Run.{mask_at, mask_end};
ghost use Rattle.run.specs.Kept.{Marked};

use crate::kept::{KeptLists, Sizes, mask_to_all};
use commands::Marking;
use stems::{HINT_MASK_SIZE, HintMask};
use zones::{Gauge, ZONE_NUMBERS};

// The very bytes of the script that a mask command names.
fn mask_part(script: &[u8], from: usize, len: usize) -> &[u8]
    requires { from + len ≤ length script.now }
    ensures { result.now ≡ take len (drop from script.now) }
{
    let end = from + len;
    &script[from..end]
}

// The mask of them, where the script's mask bytes start at byte `from`.
pub(crate) fn mask_at(script: &[u8], from: usize, start: u32, len: u32) -> HintMask
    requires { from + start + len ≤ length script.now }
    ensures { result ≡ mask_at script.now from start len }
{
    HintMask::new(mask_part(script, from + (start as usize), len as usize))
}

// What such a command makes of the hints that lists keep.
pub(crate) fn marked(
    sizes: Sizes,
    script: &[u8],
    from: usize,
    marking: Marking,
    gauge: Gauge,
    zones: &[i32; ZONE_NUMBERS],
    mask: &mut [u8; HINT_MASK_SIZE],
    lists: &mut KeptLists,
) -> Sizes
    requires { (from + mask_end marking ≤ length script.now) × (sizes.initial ≤ max_hints) }
    ensures { Marked (state_in gauge zones.now) script.now from marking sizes
        mask.old lists.old.stems lists.old.initial result mask.new lists.new.stems
        lists.new.initial lists.new.tags ×
        ((lists.new.map ≡ lists.old.map) × NoteRoom lists.new.notes) }
{
    match marking {
        Marking::Bad => sizes,
        Marking::Stem(min, max) => sizes.with_stem(&mut lists.stems, min, max),
        Marking::Mask { start, len } => sizes.with_mask(mask, mask_at(script, from, start, len)),
        Marking::Counter { start, len } => {
            let given = mask_at(script, from, start, len);
            sizes.counter(lists, gauge, zones, given)
        }
        Marking::Clear => {
            mask_to_all(mask);
            Sizes::none()
        }
        Marking::Close => sizes,
    }
}
