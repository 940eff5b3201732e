// What a font's parameters and a scale make: the zones on the device and how overshoot is treated.
ghost use Rattle.std.specs.Prelude.{◌≡◌, ◌<◌, pos, ◌<ℤ◌};
ghost use Rattle.zones.specs.Zones.{packed};
ghost use Rattle.zones.specs.State.{counts_fit, em_box, kept_of, clamped_scale, boost_of, state_of};

use crate::blues::{BlueZone, Blues, MAX_BLUE_ZONES, MAX_BLUES, MAX_OTHER_BLUES, Zones};
use fixed::{Fixed, least};

#[derive(Clone, Copy, Debug, PartialEq, Eq)]
pub struct HintParams {
    pub blue_scale: Fixed,
    pub blue_shift: Fixed,
    pub blue_fuzz: Fixed,
    pub language_group: i32,
    pub blues: Blues,
    pub other_blues: Blues,
    pub family_blues: Blues,
    pub family_other_blues: Blues,
}

#[derive(Clone, Copy, Debug, PartialEq, Eq)]
pub struct HintState {
    pub scale: Fixed,
    pub blue_scale: Fixed,
    pub blue_shift: Fixed,
    pub blue_fuzz: Fixed,
    pub suppress_overshoot: bool,
    pub do_em_box_hints: bool,
    pub boost: Fixed,
    pub zones: [BlueZone; MAX_BLUE_ZONES],
    pub zone_count: usize,
}

// A state's numbers without its zones, which a list holds beside them.
#[derive(Clone, Copy, Debug, PartialEq, Eq)]
pub struct Gauge {
    pub scale: Fixed,
    pub blue_scale: Fixed,
    pub blue_shift: Fixed,
    pub blue_fuzz: Fixed,
    pub suppress_overshoot: bool,
    pub do_em_box_hints: bool,
    pub boost: Fixed,
    pub zone_count: usize,
}

// The em box, from −120.0 to 880.0: the ascent and descent that a font for ideographs has unless it
// says otherwise.
const ICF_BOTTOM: Fixed = Fixed { bits: -0x78_0000 };

const ICF_TOP: Fixed = Fixed { bits: 0x370_0000 };

// The boost at scale 0, 0.6 of a pixel, and the most that it may be. It stays under a half, or the
// baseline, which it pushes down, would round to a pixel below 0.
const FULL_BOOST: Fixed = Fixed { bits: 39322 };

const MOST_BOOST: Fixed = Fixed { bits: 0x7fff };

impl HintParams {
    // Every list has at most seven pairs.
    #[tactic(auto, unfolding(crate::specs::State::counts_fit))]
    pub fn counts_fit(self) -> bool
        ensures { result ≡ counts_fit self }
    {
        self.blues.count <= MAX_BLUES
            && self.other_blues.count <= MAX_BLUES
            && self.family_blues.count <= MAX_BLUES
            && self.family_other_blues.count <= MAX_BLUES
    }

    // From `build_zones`: the glyph is fitted to the em box and not to zones.
    #[tactic(auto, unfolding(crate::specs::State::em_box))]
    pub(crate) fn em_box(self) -> bool
        ensures { result ≡ em_box self }
    {
        let blues = self.blues;
        self.language_group == 1
            && (blues.count == 0
                || blues.count == 2
                    && blues.pairs[0].wholly_below(ICF_BOTTOM)
                    && blues.pairs[1].wholly_above(ICF_TOP))
    }

    // From `build_zones`: the zones kept of the blues and of the first five other blues.
    pub(crate) fn kept(self) -> Zones
        ensures { result ≡ packed (kept_of self) }
    {
        let blues = self.blues;
        let others = self.other_blues;
        Zones::none()
            .read(blues, least(blues.count, MAX_BLUES), false)
            .read(others, least(others.count, MAX_OTHER_BLUES), true)
    }
}

// From `build_zones`: no greater than one pixel for the highest zone.
#[tactic(auto, unfolding(crate::specs::State::clamped_scale))]
fn clamped(blue_scale: Fixed, greatest: Fixed) -> Fixed
    ensures { result ≡ clamped_scale blue_scale greatest }
{
    if Fixed::ZERO < greatest {
        let most = Fixed::ONE.div(greatest);
        if most < blue_scale {
            return most;
        }
    }
    blue_scale
}

// From `build_zones`: how far flat edges are pushed out where overshoot is suppressed.
#[tactic(auto, unfolding(crate::specs::State::boost_of))]
fn boost_at(scale: Fixed, blue_scale: Fixed) -> Fixed
    requires { pos 0 <ℤ scale.bits }
    ensures { result ≡ boost_of scale blue_scale }
{
    if scale < blue_scale {
        return FULL_BOOST
            .sub(FULL_BOOST.mul_div(scale, blue_scale))
            .min(MOST_BOOST);
    }
    Fixed::ZERO
}

impl HintState {
    // Ports `HintState::new` and `build_zones`.
    pub fn new(params: HintParams, scale: Fixed) -> HintState
        requires { pos 0 <ℤ scale.bits }
        ensures { result ≡ state_of params scale }
    {
        let none = BlueZone::none();
        let mut state = HintState {
            scale,
            blue_scale: params.blue_scale,
            blue_shift: params.blue_shift,
            blue_fuzz: params.blue_fuzz,
            suppress_overshoot: false,
            do_em_box_hints: params.em_box(),
            boost: Fixed::ZERO,
            zones: [none; MAX_BLUE_ZONES],
            zone_count: 0,
        };
        if state.do_em_box_hints {
            return state;
        }
        let kept = params.kept();
        let most = clamped(params.blue_scale, kept.greatest);
        let boost = boost_at(scale, most);
        state.blue_scale = most;
        state.suppress_overshoot = scale < most;
        state.boost = boost;
        state.zone_count = kept.count;
        let others = params.family_other_blues;
        let blues = params.family_blues;
        let limit = Fixed::ONE.div(scale);
        // Every flat edge goes to the family's nearest, then to the device.
        for (i, zone) in kept.list[..kept.count].iter().enumerate() {
            state.zones[i] = zone.by_family(others, blues, limit).on_device(scale, boost);
        }
        state
    }
}
