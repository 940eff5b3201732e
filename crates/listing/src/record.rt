// The record of an edge.
ghost use Rattle.std.specs.Prelude.{◌≡◌};
ghost use Rattle.listing.specs.Records.{stem_of, record_of, counts};

use fixed::Fixed;
use stems::{Hint, Kind};

// The stem number of a synthetic edge, which is no stem's: the first that no stem has.
pub const SYNTHETIC: u8 = 96;

// An edge as it stands after the build: its character height, its device height in full, the scale
// from it on, its kind, its stem and whether it is locked.
#[derive(Clone, Copy, Debug, PartialEq, Eq)]
pub struct EdgeRecord {
    pub height: Fixed,
    pub device: Fixed,
    pub scale: Fixed,
    pub kind: Kind,
    pub stem: u8,
    pub locked: bool,
}

// What is counted beside the edges themselves.
#[derive(Clone, Copy, Debug, PartialEq, Eq)]
pub(crate) enum Counted {
    Pairs,
    Ghosts,
    Locked,
}

fn stem_of(edge: Hint) -> u8
    ensures { result ≡ stem_of edge }
{
    if edge.synthetic {
        return SYNTHETIC;
    }
    edge.index
}

impl EdgeRecord {
    pub fn of(edge: Hint) -> EdgeRecord
        ensures { result ≡ record_of edge }
    {
        EdgeRecord {
            height: edge.cs_coord,
            device: edge.ds_coord,
            scale: edge.scale,
            kind: edge.kind,
            stem: stem_of(edge),
            locked: edge.locked,
        }
    }

    // Whether a record is one of those that are counted.
    pub(crate) fn counts_as(self, what: Counted) -> bool
        ensures { result ≡ counts what self }
    {
        match what {
            Counted::Pairs => matches!(self.kind, Kind::PairBottom),
            Counted::Ghosts => matches!(self.kind, Kind::GhostBottom | Kind::GhostTop),
            Counted::Locked => self.locked,
        }
    }
}
