// Every map but the initial one.
ghost use Rattle.std.specs.Prelude.{◌≡◌};
ghost use Rattle.zones.specs.Numbers.{state_in};
ghost use Rattle.build.specs.Build.{built_of};
ghost use Rattle.build.specs.Made.{NoteRoom, Makable, MadeMap};

use crate::ghosts::put_em_box;
use crate::place::{place_free, place_locked};
use crate::save::save_all;
use adjust::adjust;
use fixed::{Fixed, least};
use hintmap::HintMap;
use stems::{HintMask, LINES, MAX_HINTS, STEM_NUMBERS, Stems, TAGS};
use zones::{Gauge, HintState, ZONE_NUMBERS};

// A map, and the stems after its build.
#[derive(Clone, Copy)]
pub struct Built {
    pub map: HintMap,
    pub stems: Stems,
}

// Ports `build` where it is not the initial map's, into lists: active stems that are locked or
// captured, then those that are left, placed by the lines of the initial map. The heights of its
// edges are saved in the stems. The adjustment has `notes` for its own. Gives the map's length.
pub fn make_map(
    lines: &mut [i32; LINES],
    tags: &mut [u8; TAGS],
    gauge: Gauge,
    zones: &[i32; ZONE_NUMBERS],
    mask: HintMask,
    stems: &mut [i32; STEM_NUMBERS],
    count: usize,
    initial: &[i32; LINES],
    size: usize,
    base: Fixed,
    notes: &mut [i32; MAX_HINTS],
) -> usize
    requires { Makable lines.old tags.old stems.old size × NoteRoom notes.old }
    ensures { MadeMap (state_in gauge zones.now) mask stems.old count
        initial.now size base result lines.new tags.new stems.new ×
        NoteRoom notes.new }
{
    let boxed = put_em_box(lines, tags, gauge.do_em_box_hints, gauge.scale);
    let mut rest = mask.bytes;
    let declared = least(count, MAX_HINTS);
    let locked = place_locked(lines, tags, boxed, &mut rest, gauge, zones, stems, declared);
    let scale = gauge.scale;
    let len = place_free(
        lines, tags, locked, &rest, scale, stems, declared, initial, size, base,
    );
    adjust(lines, tags, len, notes);
    save_all(stems, lines, tags, len);
    len
}

// The same of stems and of an initial map by value.
pub fn build_map(state: HintState, mask: HintMask, stems: Stems, initial: HintMap) -> Built
    ensures { result ≡ built_of state mask initial stems }
{
    let mut numbers = [0i32; STEM_NUMBERS];
    stems.list(&mut numbers);
    let mut zones = [0i32; ZONE_NUMBERS];
    state.list(&mut zones);
    let mut base = [0i32; LINES];
    let mut base_tags = [0u8; TAGS];
    initial.list(&mut base, &mut base_tags);
    let mut lines = [0i32; LINES];
    let mut tags = [0u8; TAGS];
    let mut notes = [0i32; MAX_HINTS];
    let size = least(initial.len, MAX_HINTS);
    let len = make_map(
        &mut lines,
        &mut tags,
        state.gauge(),
        &zones,
        mask,
        &mut numbers,
        stems.count,
        &base,
        size,
        initial.scale,
        &mut notes,
    );
    Built {
        map: HintMap::from_lists(&lines, &tags, len, state.scale).validate(),
        stems: Stems::from_list(&numbers, stems.count),
    }
}
