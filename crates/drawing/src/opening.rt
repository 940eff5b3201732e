// Opening a drawing without a script.
ghost use Rattle.std.specs.Prelude.{◌≡◌};
ghost use Rattle.hints.specs.Calls.{new_drawing};
ghost use Rattle.drawing.specs.Open.{refused_state, refused_by, open_of, Opens};

use fixed::Fixed;
use hints::{Drawing, Hints};
use pen::Pen;
use std::error::Error;
use std::fmt;
use zones::{BlueZone, HintParams, HintState, MAX_BLUE_ZONES};

// Why a drawing is not opened.
#[derive(Clone, Copy, Debug, PartialEq, Eq)]
pub enum OpenRefusal {
    BadScale,
    BadBlues,
}

impl fmt::Display for OpenRefusal {
    fn fmt<W: fmt::Write>(&self, f: &mut fmt::Formatter<W>) -> fmt::Result {
        f.write_str(match self {
            OpenRefusal::BadScale => "the scale is below one bit",
            OpenRefusal::BadBlues => "there are too many blues",
        })
    }
}

impl Error for OpenRefusal {}

// The answer, the zones, and the drawing beside them.
#[derive(Clone, Copy)]
pub struct Opened {
    pub answer: Result<(), OpenRefusal>,
    pub state: HintState,
    pub drawing: Drawing,
}

// From `HintingSink::new`.
fn new_drawing(scale: Fixed) -> Drawing
    ensures { result ≡ new_drawing scale }
{
    Drawing {
        hints: Hints::new(scale),
        pen: Pen::new(),
    }
}

// The zones beside a refused opening: scale 1.0 and all else 0.
fn refused_state() -> HintState
    ensures { result ≡ refused_state }
{
    let none = BlueZone {
        is_bottom: false,
        cs_bottom_edge: Fixed::ZERO,
        cs_top_edge: Fixed::ZERO,
        cs_flat_edge: Fixed::ZERO,
        ds_flat_edge: Fixed::ZERO,
    };
    HintState {
        scale: Fixed::ONE,
        blue_scale: Fixed::ZERO,
        blue_shift: Fixed::ZERO,
        blue_fuzz: Fixed::ZERO,
        suppress_overshoot: false,
        do_em_box_hints: false,
        boost: Fixed::ZERO,
        zones: [none; MAX_BLUE_ZONES],
        zone_count: 0,
    }
}

fn refused(refusal: OpenRefusal) -> Opened
    ensures { result ≡ refused_by refusal }
{
    Opened {
        answer: Err(refusal),
        state: refused_state(),
        drawing: new_drawing(Fixed::ONE),
    }
}

// Opens a drawing at a scale, or refuses the scale, then the counts.
#[tactic(auto, unfolding(crate::specs::Open::open_of))]
pub fn open(params: HintParams, scale: Fixed) -> Opened
    ensures { Opens (open_of params scale) result }
{
    if scale.bits < 1 {
        return refused(OpenRefusal::BadScale);
    }
    if !params.counts_fit() {
        return refused(OpenRefusal::BadBlues);
    }
    Opened {
        answer: Ok(()),
        state: HintState::new(params, scale),
        drawing: new_drawing(scale),
    }
}
