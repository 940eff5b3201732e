// The capture of a stem's edges by the zones.
ghost use Rattle.std.specs.Prelude.{◌≡◌, [], ◌≤◌, take};
ghost use Rattle.zones.specs.Zones.{max_zones};
ghost use Rattle.zones.specs.Numbers.{zones_in, state_by, state_in};
ghost use Rattle.zones.specs.Capture.{within, holds, first_holding, bottom_goal, top_goal, capture_move, lifted};
ghost use Rattle.zones.specs.Capture.{capture_of};

use crate::blues::{BlueZone, MAX_BLUE_ZONES};
use crate::numbers::{ZONE_NUMBERS, zone_at};
use crate::state::{Gauge, HintState};
use fixed::{Fixed, least};
use stems::Hint;

// A stem's edges after capture, and whether they were captured, or locked before it.
#[derive(Clone, Copy, Debug, PartialEq, Eq)]
pub struct Captured {
    pub captured: bool,
    pub bottom: Hint,
    pub top: Hint,
}

impl BlueZone {
    pub(crate) fn within(self, fuzz: Fixed, height: Fixed) -> bool
        ensures { result ≡ within fuzz self height }
    {
        self.cs_bottom_edge.sub(fuzz) <= height && height <= self.cs_top_edge.add(fuzz)
    }

    #[tactic(auto, unfolding(crate::specs::Capture::holds))]
    pub(crate) fn holds(self, fuzz: Fixed, bottom: Hint, top: Hint) -> bool
        ensures { result ≡ holds fuzz bottom top self }
    {
        if self.is_bottom {
            return bottom.is_bottom() && self.within(fuzz, bottom.cs_coord);
        }
        top.is_top() && self.within(fuzz, top.cs_coord)
    }
}

// A valid edge moved and locked.
#[tactic(auto, unfolding(crate::specs::Capture::lifted))]
fn lift(edge: Hint, by: Fixed) -> Hint
    ensures { result ≡ lifted edge by }
{
    if edge.is_valid() {
        return edge.locked_at(edge.ds_coord.add(by));
    }
    edge
}

// The first of so many zones that holds one of the edges.
fn holder(
    zones: &[i32; ZONE_NUMBERS],
    count: usize,
    fuzz: Fixed,
    bottom: Hint,
    top: Hint,
) -> Option<BlueZone>
    requires { count ≤ max_zones }
    ensures { result ≡ first_holding fuzz bottom top (take count (zones_in zones.now)) }
{
    for i in 0..count {
        let zone = zone_at(zones, i);
        if zone.holds(fuzz, bottom, top) {
            return Some(zone);
        }
    }
    None
}

impl Gauge {
    // From `capture`: where a bottom edge goes in a bottom zone. An overshoot that is kept and deep
    // enough shows by a whole pixel at least.
    #[tactic(auto, unfolding(crate::specs::Capture::bottom_goal))]
    fn bottom_goal(self, zone: BlueZone, edge: Hint) -> Fixed
        ensures { result ≡ bottom_goal (state_by self []) zone edge }
    {
        let flat = zone.ds_flat_edge;
        if self.suppress_overshoot {
            return flat;
        }
        let rounded = edge.ds_coord.round();
        let depth = zone.cs_top_edge.sub(edge.cs_coord);
        if self.blue_shift <= depth {
            return rounded.min(flat.sub(Fixed::ONE));
        }
        rounded
    }

    // From `capture`: where a top edge goes in a top zone, likewise. It stands beside its mirror image, as
    // the definitions `bottom_goal` and `top_goal` do, since each step turns round with the side.
    #[tactic(auto, unfolding(crate::specs::Capture::top_goal))]
    fn top_goal(self, zone: BlueZone, edge: Hint) -> Fixed
        ensures { result ≡ top_goal (state_by self []) zone edge }
    {
        let flat = zone.ds_flat_edge;
        if self.suppress_overshoot {
            return flat;
        }
        let rounded = edge.ds_coord.round();
        let height = edge.cs_coord.sub(zone.cs_bottom_edge);
        if self.blue_shift <= height {
            return rounded.max(flat.add(Fixed::ONE));
        }
        rounded
    }

    #[tactic(auto, unfolding(crate::specs::Capture::capture_move))]
    fn move_by(self, zone: BlueZone, bottom: Hint, top: Hint) -> Fixed
        ensures { result ≡ capture_move (state_by self []) zone bottom top }
    {
        if zone.is_bottom {
            return self.bottom_goal(zone, bottom).sub(bottom.ds_coord);
        }
        self.top_goal(zone, top).sub(top.ds_coord)
    }

    // Ports `HintState::capture`, by a list that holds the zones.
    pub fn capture_by(self, zones: &[i32; ZONE_NUMBERS], bottom: Hint, top: Hint) -> Captured
        ensures { result ≡ capture_of (state_in self zones.now) bottom top }
    {
        let count = least(self.zone_count, MAX_BLUE_ZONES);
        match holder(zones, count, self.blue_fuzz, bottom, top) {
            Some(zone) => {
                let by = self.move_by(zone, bottom, top);
                Captured {
                    captured: true,
                    bottom: lift(bottom, by),
                    top: lift(top, by),
                }
            }
            None => Captured {
                captured: false,
                bottom,
                top,
            },
        }
    }
}

impl HintState {
    // The same by the zones that a state has.
    pub fn capture(self, bottom: Hint, top: Hint) -> Captured
        ensures { result ≡ capture_of self bottom top }
    {
        let mut zones = [0i32; ZONE_NUMBERS];
        self.list(&mut zones);
        self.gauge().capture_by(&zones, bottom, top)
    }
}
