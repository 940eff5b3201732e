// How many words a call would write, with nothing written and no point placed.
ghost use Rattle.std.specs.Prelude.{◌≡◌, ◌≤◌};
ghost use Rattle.pen.specs.Counting.{new_trail, flush_count, close_count, count_of};

use crate::records::{BARE_RECORD, CURVE_RECORD, POINT_RECORD};
use crate::strokes::{Path, Point};

// What decides it: the start of the open path, and the character point of the line that waits.
#[derive(Clone, Copy, Debug, PartialEq, Eq)]
pub struct Trail {
    pub start: Option<Point>,
    pub waiting: Option<Point>,
}

// The trail behind a call, and the words of the call.
#[derive(Clone, Copy, Debug, PartialEq, Eq)]
pub struct Counted {
    pub trail: Trail,
    pub words: usize,
}

impl Trail {
    pub fn new() -> Trail
        ensures { result ≡ new_trail }
    {
        Trail {
            start: None,
            waiting: None,
        }
    }

    // The words of the line that waits.
    pub(crate) fn flush_count(self) -> usize
        ensures { (result ≡ flush_count self.waiting) × (result ≤ 3) }
    {
        match self.waiting {
            None => 0,
            Some(_) => POINT_RECORD,
        }
    }

    // The words of closing: none without a start, and no line that leads to the start.
    pub(crate) fn close_count(self) -> usize
        ensures { (result ≡ close_count self.start self.waiting) × (result ≤ 4) }
    {
        let Some(from) = self.start else {
            return 0;
        };
        if let Some(at) = self.waiting {
            if at != from {
                return POINT_RECORD + BARE_RECORD;
            }
        }
        BARE_RECORD
    }

    // A call's words, and the trail behind it.
    #[tactic(auto, unfolding(crate::specs::Counting::count_of))]
    pub fn count(self, path: Path) -> Counted
        ensures { (result ≡ count_of self path) × (result.words ≤ 10) }
    {
        match path {
            Path::Move(at) => Counted {
                trail: Trail {
                    start: Some(at),
                    waiting: None,
                },
                words: self.close_count() + POINT_RECORD,
            },
            Path::Line(at) => Counted {
                trail: Trail {
                    waiting: Some(at),
                    ..self
                },
                words: self.flush_count(),
            },
            Path::Curve(_, _, _) => Counted {
                trail: Trail {
                    waiting: None,
                    ..self
                },
                words: self.flush_count() + CURVE_RECORD,
            },
            Path::Finish => Counted {
                trail: Trail::new(),
                words: self.close_count() + BARE_RECORD,
            },
        }
    }
}
