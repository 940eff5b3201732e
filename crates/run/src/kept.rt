// The hints of a run, kept in lists: its stems, the present mask and the lines of both maps. A command
// changes them where they lie. What lies past the declared stems and past a map's length is not read.
ghost use Rattle.std.specs.Prelude.{◌≡◌, ◌≤◌, replicate};
ghost use Rattle.stems.specs.Edge.{max_hints};
ghost use Rattle.stems.specs.Mask.{mask_size};
ghost use Rattle.zones.specs.Numbers.{state_in};
ghost use Rattle.build.specs.Made.{NoteRoom};
ghost use Rattle.run.specs.Kept.{no_lists, no_sizes, Stemmed, Masked, Based, Countered, Readied};

use build::{make_initial, make_map};
use fixed::Fixed;
use stems::{HINT_MASK_SIZE, HintMask, LINES, MAX_HINTS, STEM_NUMBERS, StemHint, TAGS, put_stem};
use zones::{Gauge, ZONE_NUMBERS};

// The lists: stems, the lines of the initial map and of the current one. Tags and notes are lent for a
// build, and mean nothing between two.
#[derive(Drop)]
pub struct KeptLists {
    pub stems: [i32; STEM_NUMBERS],
    pub initial: [i32; LINES],
    pub map: [i32; LINES],
    pub tags: [u8; TAGS],
    pub notes: [i32; MAX_HINTS],
}

impl KeptLists {
    pub fn new() -> KeptLists
        ensures { result ≡ no_lists }
    {
        KeptLists {
            stems: [0; STEM_NUMBERS],
            initial: [0; LINES],
            map: [0; LINES],
            tags: [0; TAGS],
            notes: [0; MAX_HINTS],
        }
    }
}

// How many stems there are, how long the initial map and the current one are, and whether each is
// built. The two marks stand last, so that no gap between numbers is copied in odd parts.
#[derive(Clone, Copy)]
pub struct Sizes {
    pub stems: usize,
    pub initial: usize,
    pub map: usize,
    pub based: bool,
    pub valid: bool,
}

// A mask by which every stem is active.
pub(crate) fn mask_to_all(mask: &mut [u8; HINT_MASK_SIZE])
    ensures { mask.new ≡ replicate mask_size 255 }
{
    mask.fill(255);
}

impl Sizes {
    // No stems, and two maps to be built.
    pub(crate) fn none() -> Sizes
        ensures { result ≡ no_sizes }
    {
        Sizes {
            stems: 0,
            initial: 0,
            based: false,
            map: 0,
            valid: false,
        }
    }

    // Ports `add_stem`: a 97th stem, and one declared while the map is valid, is ignored.
    pub(crate) fn with_stem(self, stems: &mut [i32; STEM_NUMBERS], min: Fixed, max: Fixed) -> Sizes
        ensures { Stemmed self stems.old min max result stems.new }
    {
        if self.valid {
            return self;
        }
        let count = self.stems;
        if count < MAX_HINTS {
            let zero = Fixed::ZERO;
            let stem = StemHint {
                is_used: false,
                min,
                max,
                ds_min: zero,
                ds_max: zero,
            };
            put_stem(stems, count, stem);
            let mut sizes = self;
            sizes.stems = count + 1;
            return sizes;
        }
        self
    }

    // Ports `hint_mask`: a mask that differs makes the map invalid.
    pub(crate) fn with_mask(self, mask: &mut [u8; HINT_MASK_SIZE], given: HintMask) -> Sizes
        ensures { Masked self mask.old given result mask.new }
    {
        let valid = self.valid && given.bytes == *mask;
        *mask = given.bytes;
        Sizes { valid, ..self }
    }

    // From `build`: the initial map is made first, where it is not valid.
    fn with_initial(self, lists: &mut KeptLists, gauge: Gauge, zones: &[i32; ZONE_NUMBERS]) -> Sizes
        requires { self.initial ≤ max_hints }
        ensures { Based (state_in gauge zones.now) self lists.old.initial lists.old.stems result
            lists.new.initial lists.new.tags ×
            ((lists.new.stems ≡ lists.old.stems) × ((lists.new.map ≡ lists.old.map) ×
            NoteRoom lists.new.notes)) }
    {
        if self.based {
            return self;
        }
        let len = make_initial(
            &mut lists.initial,
            &mut lists.tags,
            gauge,
            zones,
            &lists.stems,
            self.stems,
            &mut lists.notes,
        );
        let mut sizes = self;
        sizes.initial = len;
        sizes.based = true;
        sizes
    }

    // Ports `counter_mask`: a map that is thrown away, for the heights that it saves.
    pub(crate) fn counter(
        self,
        lists: &mut KeptLists,
        gauge: Gauge,
        zones: &[i32; ZONE_NUMBERS],
        mask: HintMask,
    ) -> Sizes
        requires { self.initial ≤ max_hints }
        ensures { Countered (state_in gauge zones.now) mask self lists.old.initial
            lists.old.stems result lists.new.initial lists.new.tags lists.new.stems ×
            ((lists.new.map ≡ lists.old.map) × NoteRoom lists.new.notes) }
    {
        let sizes = self.with_initial(lists, gauge, zones);
        let mut thrown = [0i32; LINES];
        make_map(
            &mut thrown,
            &mut lists.tags,
            gauge,
            zones,
            mask,
            &mut lists.stems,
            sizes.stems,
            &lists.initial,
            sizes.initial,
            gauge.scale,
            &mut lists.notes,
        );
        sizes
    }

    // From `hint`: the map is built from the present mask.
    pub(crate) fn ready(
        self,
        lists: &mut KeptLists,
        gauge: Gauge,
        zones: &[i32; ZONE_NUMBERS],
        mask: &[u8; HINT_MASK_SIZE],
    ) -> Sizes
        requires { self.initial ≤ max_hints }
        ensures { Readied (state_in gauge zones.now) self lists.old.initial mask.now
            lists.old.stems result lists.new.map lists.new.initial lists.new.tags
            lists.new.stems × NoteRoom lists.new.notes }
    {
        let based = self.with_initial(lists, gauge, zones);
        let present = HintMask::new(mask);
        let len = make_map(
            &mut lists.map,
            &mut lists.tags,
            gauge,
            zones,
            present,
            &mut lists.stems,
            based.stems,
            &lists.initial,
            based.initial,
            gauge.scale,
            &mut lists.notes,
        );
        let mut sizes = based;
        sizes.map = len;
        sizes.valid = true;
        sizes
    }
}
