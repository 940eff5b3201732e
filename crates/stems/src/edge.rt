// Stems, and a stem's edges.
ghost use Rattle.std.specs.Prelude.{◌≡◌};
ghost use Rattle.stems.specs.Edge.{no_hint, hint_at, is_valid, is_bottom, is_top, is_pair, is_pair_top, at_device};
ghost use Rattle.stems.specs.Edge.{locked_at, shape_of, edge_of, setup_of};

use fixed::Fixed;

// The most stems of a glyph; there is room for as many edges in a map.
pub const MAX_HINTS: usize = 96;

// The number of the last of them, which is also the least length of a map that has no room for a
// pair.
pub const LAST_HINT: usize = 95;

#[derive(Clone, Copy, Debug, PartialEq, Eq)]
pub struct StemHint {
    pub is_used: bool,
    pub min: Fixed,
    pub max: Fixed,
    pub ds_min: Fixed,
    pub ds_max: Fixed,
}

// The stems that are declared.
#[derive(Clone, Copy, Debug, PartialEq, Eq)]
pub struct Stems {
    pub list: [StemHint; MAX_HINTS],
    pub count: usize,
}

// What an edge is: no edge, the one edge of a ghost, or one of the two of a pair.
#[derive(Clone, Copy, Debug, PartialEq, Eq)]
pub enum Kind {
    Absent,
    GhostBottom,
    GhostTop,
    PairBottom,
    PairTop,
}

// Bottom or top: of a stem's two edges, and of zones.
#[derive(Clone, Copy, Debug, PartialEq, Eq)]
pub enum Side {
    Bottom,
    Top,
}

#[derive(Clone, Copy, Debug, PartialEq, Eq)]
pub struct Hint {
    pub kind: Kind,
    pub locked: bool,
    pub synthetic: bool,
    pub index: u8,
    pub cs_coord: Fixed,
    pub ds_coord: Fixed,
    pub scale: Fixed,
}

// What a stem's width makes of it: a ghost at a height, or a pair of two.
#[derive(Clone, Copy, Debug, PartialEq, Eq)]
pub enum Shape {
    BottomGhost(Fixed),
    TopGhost(Fixed),
    Pair(Fixed, Fixed),
}

// The widths by which a font declares a ghost, −21.0 and −20.0: one edge that is to be aligned by
// itself, as the top and the bottom of a sans-serif I, and no stem between two.
const GHOST_BOTTOM_WIDTH: Fixed = Fixed { bits: -0x15_0000 };

const GHOST_TOP_WIDTH: Fixed = Fixed { bits: -0x14_0000 };

impl StemHint {
    // From `Hint::setup`: the stem's shape, by its width.
    #[tactic(auto, unfolding(crate::specs::Edge::shape_of))]
    pub fn shape(self) -> Shape
        ensures { result ≡ shape_of self }
    {
        let min = self.min;
        let max = self.max;
        let width = max.sub(min);
        if width == GHOST_BOTTOM_WIDTH {
            Shape::BottomGhost(max)
        } else if width == GHOST_TOP_WIDTH {
            Shape::TopGhost(min)
        } else if width < Fixed::ZERO {
            Shape::Pair(max, min)
        } else {
            Shape::Pair(min, max)
        }
    }
}

impl Shape {
    // From `Hint::setup`: the bottom edge or the top edge, whether or not the stem is used. A ghost
    // has only its own.
    #[tactic(auto, unfolding(crate::specs::Edge::edge_of))]
    fn edge(self, side: Side, index: u8, scale: Fixed) -> Hint
        ensures { result ≡ edge_of self side index scale }
    {
        let (kind, height) = match (self, side) {
            (Shape::BottomGhost(height), Side::Bottom) => (Kind::GhostBottom, height),
            (Shape::TopGhost(height), Side::Top) => (Kind::GhostTop, height),
            (Shape::Pair(low, _), Side::Bottom) => (Kind::PairBottom, low),
            (Shape::Pair(_, high), Side::Top) => (Kind::PairTop, high),
            _ => (Kind::Absent, Fixed::ZERO),
        };
        Hint::at(kind, height, index, scale)
    }
}

impl Hint {
    // Ports `Hint::default`.
    pub fn none() -> Hint
        ensures { result ≡ no_hint }
    {
        Hint {
            kind: Kind::Absent,
            locked: false,
            synthetic: false,
            index: 0,
            cs_coord: Fixed::ZERO,
            ds_coord: Fixed::ZERO,
            scale: Fixed::ZERO,
        }
    }

    // An unlocked edge of a stem, at its height by the scale.
    fn at(kind: Kind, height: Fixed, index: u8, scale: Fixed) -> Hint
        ensures { result ≡ hint_at kind height index scale }
    {
        Hint {
            kind,
            locked: false,
            synthetic: false,
            index,
            cs_coord: height,
            ds_coord: height.mul(scale),
            scale,
        }
    }

    // Ports `Hint::setup`: a stem's bottom or top edge, locked at its saved height once the stem is
    // used.
    #[tactic(auto, unfolding(crate::specs::Edge::setup_of))]
    pub fn setup(stem: StemHint, index: u8, scale: Fixed, side: Side) -> Hint
        ensures { result ≡ setup_of stem index scale side }
    {
        let edge = stem.shape().edge(side, index, scale);
        if !stem.is_used || !edge.is_valid() {
            edge
        } else if edge.is_top() {
            edge.locked_at(stem.ds_max)
        } else {
            edge.locked_at(stem.ds_min)
        }
    }

    pub fn is_valid(self) -> bool
        ensures { result ≡ is_valid self }
    {
        self.kind != Kind::Absent
    }

    pub fn is_bottom(self) -> bool
        ensures { result ≡ is_bottom self }
    {
        matches!(self.kind, Kind::GhostBottom | Kind::PairBottom)
    }

    pub fn is_top(self) -> bool
        ensures { result ≡ is_top self }
    {
        matches!(self.kind, Kind::GhostTop | Kind::PairTop)
    }

    pub fn is_pair(self) -> bool
        ensures { result ≡ is_pair self }
    {
        matches!(self.kind, Kind::PairBottom | Kind::PairTop)
    }

    pub fn is_pair_top(self) -> bool
        ensures { result ≡ is_pair_top self }
    {
        self.kind == Kind::PairTop
    }

    pub fn is_locked(self) -> bool
        ensures { result ≡ self.locked }
    {
        self.locked
    }

    pub fn is_synthetic(self) -> bool
        ensures { result ≡ self.synthetic }
    {
        self.synthetic
    }

    // The edge at another device height.
    pub fn at_device(self, height: Fixed) -> Hint
        ensures { result ≡ at_device self height }
    {
        Hint {
            ds_coord: height,
            ..self
        }
    }

    // The edge at another device height and locked there; ports `Hint::lock`.
    pub fn locked_at(self, height: Fixed) -> Hint
        ensures { result ≡ locked_at self height }
    {
        Hint {
            locked: true,
            ..self.at_device(height)
        }
    }
}
