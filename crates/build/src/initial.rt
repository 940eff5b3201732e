// The initial map.
ghost use Rattle.std.specs.Prelude.{◌≡◌};
ghost use Rattle.stems.specs.Lists.{Whole, stems_in};
ghost use Rattle.zones.specs.Numbers.{state_in};
ghost use Rattle.build.specs.Build.{initial_of};
ghost use Rattle.build.specs.Made.{NoteRoom, MadeInitial};

use crate::ghosts::{put_baseline, put_em_box};
use crate::place::place_locked;
use adjust::adjust;
use fixed::least;
use hintmap::HintMap;
use stems::{HINT_MASK_SIZE, LINES, MAX_HINTS, STEM_NUMBERS, Stems, TAGS};
use zones::{Gauge, HintState, ZONE_NUMBERS};

// Ports `build` where it is the initial map's, into lists: all stems that are locked or captured, and
// the baseline. The adjustment has `notes` for its own. Gives the map's length.
pub fn make_initial(
    lines: &mut [i32; LINES],
    tags: &mut [u8; TAGS],
    gauge: Gauge,
    zones: &[i32; ZONE_NUMBERS],
    stems: &[i32; STEM_NUMBERS],
    count: usize,
    notes: &mut [i32; MAX_HINTS],
) -> usize
    requires { Whole lines.old tags.old × NoteRoom notes.old }
    ensures { MadeInitial (state_in gauge zones.now) (stems_in stems.now count) result
        lines.new tags.new × NoteRoom notes.new }
{
    let boxed = put_em_box(lines, tags, gauge.do_em_box_hints, gauge.scale);
    let mut rest = [255u8; HINT_MASK_SIZE];
    let declared = least(count, MAX_HINTS);
    let placed = place_locked(lines, tags, boxed, &mut rest, gauge, zones, stems, declared);
    let len = put_baseline(lines, tags, placed, gauge.scale);
    adjust(lines, tags, len, notes);
    len
}

// The same of stems by value.
pub fn build_initial(state: HintState, stems: Stems) -> HintMap
    ensures { result ≡ initial_of state stems }
{
    let mut numbers = [0i32; STEM_NUMBERS];
    stems.list(&mut numbers);
    let mut zones = [0i32; ZONE_NUMBERS];
    state.list(&mut zones);
    let mut lines = [0i32; LINES];
    let mut tags = [0u8; TAGS];
    let mut notes = [0i32; MAX_HINTS];
    let len = make_initial(
        &mut lines,
        &mut tags,
        state.gauge(),
        &zones,
        &numbers,
        stems.count,
        &mut notes,
    );
    HintMap::from_lists(&lines, &tags, len, state.scale).validate()
}
