// The hints of a drawing: its stems, the present mask and both maps.
ghost use Rattle.std.specs.Prelude.{◌≡◌};
ghost use Rattle.hints.specs.Hints.{unused_stem, new_hints, with_stem, with_mask, with_initial, countered, ready_of};

use build::{build_initial, build_map};
use fixed::Fixed;
use hintmap::HintMap;
use stems::{HintMask, MAX_HINTS, StemHint, Stems};
use zones::HintState;

#[derive(Clone, Copy, Debug, PartialEq, Eq)]
pub struct Hints {
    pub stems: Stems,
    pub mask: HintMask,
    pub initial: HintMap,
    pub map: HintMap,
}

// A stem as it is declared.
fn declared(min: Fixed, max: Fixed) -> StemHint
    ensures { result ≡ unused_stem min max }
{
    StemHint {
        is_used: false,
        min,
        max,
        ds_min: Fixed::ZERO,
        ds_max: Fixed::ZERO,
    }
}

impl Hints {
    // From `HintingSink::new` and `clear_hints`.
    pub fn new(scale: Fixed) -> Hints
        ensures { result ≡ new_hints scale }
    {
        let map = HintMap::new(scale);
        Hints {
            stems: Stems {
                list: [declared(Fixed::ZERO, Fixed::ZERO); MAX_HINTS],
                count: 0,
            },
            mask: HintMask::all(),
            initial: map,
            map,
        }
    }

    // Ports `add_stem`: a 97th stem, and one declared while the map is valid, is ignored.
    #[tactic(auto, unfolding(crate::specs::Hints::with_stem))]
    pub fn with_stem(mut self, min: Fixed, max: Fixed) -> Hints
        ensures { result ≡ with_stem min max self }
    {
        let count = self.stems.count;
        if !self.map.is_valid && count < MAX_HINTS {
            self.stems.list[count] = declared(min, max);
            self.stems.count = count + 1;
        }
        self
    }

    // Ports `hint_mask`: a mask that differs makes the map invalid.
    #[tactic(auto, unfolding(crate::specs::Hints::with_mask))]
    pub fn with_mask(self, mask: HintMask) -> Hints
        ensures { result ≡ with_mask mask self }
    {
        if mask.same(self.mask) {
            return self;
        }
        Hints {
            mask,
            map: self.map.invalidate(),
            ..self
        }
    }

    // From `build`: the initial map is made first, where it is not valid.
    #[tactic(auto, unfolding(crate::specs::Hints::with_initial))]
    fn with_initial(self, state: HintState) -> Hints
        ensures { result ≡ with_initial state self }
    {
        if self.initial.is_valid {
            return self;
        }
        Hints {
            initial: build_initial(state, self.stems),
            ..self
        }
    }

    // Ports `counter_mask`: a map that is thrown away, for the heights that it saves.
    #[tactic(auto, unfolding(crate::specs::Hints::countered))]
    pub fn counter(self, state: HintState, mask: HintMask) -> Hints
        ensures { result ≡ countered state mask self }
    {
        let based = self.with_initial(state);
        let thrown = build_map(state, mask, based.stems, based.initial);
        Hints {
            stems: thrown.stems,
            ..based
        }
    }

    // From `hint`: the map is built from the present mask, where it is not valid.
    #[tactic(auto, unfolding(crate::specs::Hints::ready_of))]
    pub fn ready(self, state: HintState) -> Hints
        ensures { result ≡ ready_of state self }
    {
        if self.map.is_valid {
            return self;
        }
        let based = self.with_initial(state);
        let built = build_map(state, based.mask, based.stems, based.initial);
        Hints {
            stems: built.stems,
            map: built.map,
            ..based
        }
    }
}
