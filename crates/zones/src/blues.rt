// Lists of pairs, the zones kept of them, and their flat edges.
ghost use Rattle.std.specs.Prelude.{◌≡◌, ◌+◌, ◌≤◌, take};
ghost use Rattle.zones.specs.Zones.{max_blues, max_zones, height_of, wholly_below, wholly_above, no_zone};
ghost use Rattle.zones.specs.Zones.{zone_of, no_zones, kept_side, read_in, family_edge, family_from};
ghost use Rattle.zones.specs.Zones.{nearer, nearest_of, moved_flat, device_flat};

use fixed::{Fixed, least};
use stems::Side;

// How many pairs a list has at most, how many of the other blues count, and how many zones that
// makes.
pub const MAX_BLUES: usize = 7;

pub const MAX_OTHER_BLUES: usize = 5;

pub const MAX_BLUE_ZONES: usize = 12;

// A pair of character heights.
#[derive(Clone, Copy, Debug, PartialEq, Eq)]
pub struct Blue {
    pub bottom: Fixed,
    pub top: Fixed,
}

#[derive(Clone, Copy, Debug, PartialEq, Eq)]
pub struct Blues {
    pub pairs: [Blue; MAX_BLUES],
    pub count: usize,
}

#[derive(Clone, Copy, Debug, PartialEq, Eq)]
pub struct BlueZone {
    pub is_bottom: bool,
    pub cs_bottom_edge: Fixed,
    pub cs_top_edge: Fixed,
    pub cs_flat_edge: Fixed,
    pub ds_flat_edge: Fixed,
}

// Zones as they are kept, with the greatest of their heights, or 0.
#[derive(Clone, Copy, Debug, PartialEq, Eq)]
pub struct Zones {
    pub list: [BlueZone; MAX_BLUE_ZONES],
    pub count: usize,
    pub greatest: Fixed,
}

// The family edge nearest to a flat edge so far, and how far it is.
#[derive(Clone, Copy, Debug, PartialEq, Eq)]
pub struct Nearest {
    pub edge: Fixed,
    pub diff: Fixed,
}

impl Blue {
    pub(crate) fn height(self) -> Fixed
        ensures { result ≡ height_of self }
    {
        self.top.sub(self.bottom)
    }

    // Both ends lie below a height.
    pub(crate) fn wholly_below(self, height: Fixed) -> bool
        ensures { result ≡ wholly_below height self }
    {
        self.bottom < height && self.top < height
    }

    // Both ends lie above a height.
    pub(crate) fn wholly_above(self, height: Fixed) -> bool
        ensures { result ≡ wholly_above height self }
    {
        height < self.bottom && height < self.top
    }

    // The edge that a pair of a family gives: the top for bottom zones, the bottom for top zones.
    pub(crate) fn edge(self, side: Side) -> Fixed
        ensures { result ≡ family_edge side self }
    {
        match side {
            Side::Bottom => self.top,
            Side::Top => self.bottom,
        }
    }
}

impl BlueZone {
    // Ports `BlueZone::default`.
    pub(crate) fn none() -> BlueZone
        ensures { result ≡ no_zone }
    {
        BlueZone {
            is_bottom: false,
            cs_bottom_edge: Fixed::ZERO,
            cs_top_edge: Fixed::ZERO,
            cs_flat_edge: Fixed::ZERO,
            ds_flat_edge: Fixed::ZERO,
        }
    }

    // From `build_zones`: the zone of a pair. A bottom zone is flat at its top, a top zone at its
    // bottom.
    pub(crate) fn new(pair: Blue, side: Side) -> BlueZone
        ensures { result ≡ zone_of side pair }
    {
        let low = pair.bottom;
        let high = pair.top;
        match side {
            Side::Bottom => BlueZone {
                is_bottom: true,
                cs_bottom_edge: low,
                cs_top_edge: high,
                cs_flat_edge: high,
                ds_flat_edge: Fixed::ZERO,
            },
            Side::Top => BlueZone {
                is_bottom: false,
                cs_bottom_edge: low,
                cs_top_edge: high,
                cs_flat_edge: low,
                ds_flat_edge: Fixed::ZERO,
            },
        }
    }

    // From `build_zones`: the flat edge moved to the family's nearest. A bottom zone looks at the
    // first of the blues too, however its search ended.
    pub(crate) fn by_family(self, others: Blues, blues: Blues, limit: Fixed) -> BlueZone
        ensures { result ≡ moved_flat others blues limit self }
    {
        let flat = self.cs_flat_edge;
        if !self.is_bottom {
            let near = blues.nearest(flat, limit, Side::Top);
            return BlueZone {
                cs_flat_edge: near.edge,
                ..self
            };
        }
        let mut near = others.nearest(flat, limit, Side::Bottom);
        if blues.count != 0 {
            let first = blues.pairs[0];
            near = near.with(flat, limit, first.top);
        }
        BlueZone {
            cs_flat_edge: near.edge,
            ..self
        }
    }

    // From `build_zones`: the flat edge on the device. The boost goes away from the glyph's middle.
    #[tactic(auto, unfolding(crate::specs::Zones::device_flat))]
    pub(crate) fn on_device(self, scale: Fixed, boost: Fixed) -> BlueZone
        ensures { result ≡ device_flat scale boost self }
    {
        let flat = self.cs_flat_edge.mul(scale);
        let device = if self.is_bottom {
            flat.add(boost.neg()).round()
        } else {
            flat.add(boost).round()
        };
        BlueZone {
            ds_flat_edge: device,
            ..self
        }
    }
}

impl Zones {
    #[tactic(auto, unfolding(crate::specs::Zones::greatest_from))]
    pub(crate) fn none() -> Zones
        ensures { result ≡ no_zones }
    {
        let none = BlueZone::none();
        Zones {
            list: [none; MAX_BLUE_ZONES],
            count: 0,
            greatest: Fixed::ZERO,
        }
    }

    // From `build_zones`: the first n pairs of a list. A pair is kept unless its height is negative.
    pub(crate) fn read(self, blues: Blues, n: usize, other: bool) -> Zones
        requires { (n ≤ max_blues) × (self.count + n ≤ max_zones) }
        ensures { result ≡ read_in other self (take n blues.pairs) }
    {
        let mut zones = self;
        for &pair in &blues.pairs[..n] {
            let height = pair.height();
            if height < Fixed::ZERO {
                continue;
            }
            let at = zones.count;
            zones.list[at] = BlueZone::new(pair, kept_side(other, at));
            zones.count = at + 1;
            zones.greatest = zones.greatest.max(height);
        }
        zones
    }
}

impl Nearest {
    // From `build_zones`: a family edge that counts and is nearer takes the place.
    #[tactic(auto, unfolding(crate::specs::Zones::nearer))]
    pub(crate) fn with(self, flat: Fixed, limit: Fixed, edge: Fixed) -> Nearest
        ensures { result ≡ nearer flat limit self edge }
    {
        let diff = flat.sub(edge).abs();
        if diff < self.diff && diff < limit {
            return Nearest { edge, diff };
        }
        self
    }
}

impl Blues {
    // From `build_zones`: the family edge nearest to a flat edge, or that flat edge, and how far it
    // is. For top zones the first pair is passed over.
    pub(crate) fn nearest(self, flat: Fixed, limit: Fixed, side: Side) -> Nearest
        ensures { result ≡ nearest_of side self flat limit }
    {
        let count = least(self.count, MAX_BLUES);
        let mut near = Nearest {
            edge: flat,
            diff: Fixed::MAX,
        };
        for pair in &self.pairs[least(first_for(side), count)..count] {
            if near.diff == Fixed::ZERO {
                return near;
            }
            near = near.with(flat, limit, pair.edge(side));
        }
        near
    }
}

// The first pair of a family's list that a search takes: of the other blues the first, of the blues
// the second.
fn first_for(side: Side) -> usize
    ensures { result ≡ family_from side }
{
    match side {
        Side::Bottom => 0,
        Side::Top => 1,
    }
}

// From `build_zones`: what a zone is that is kept after n others. The first of all is a bottom zone,
// and so is every zone of the other blues.
fn kept_side(other: bool, n: usize) -> Side
    ensures { result ≡ kept_side other n }
{
    if other || n == 0 {
        Side::Bottom
    } else {
        Side::Top
    }
}
