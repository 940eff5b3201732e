// Start point, waiting line, and the strokes that change them.
ghost use Rattle.std.specs.Prelude.{◌≡◌, ◌≤◌, length, Err};
ghost use Rattle.pen.specs.Records.{written};
ghost use Rattle.pen.specs.Strokes.{same_point, new_pen, closing_words, flush_words, move_of, line_of, curve_of};
ghost use Rattle.pen.specs.Strokes.{finish_of};
ghost use Rattle.pen.specs.Drawn.{Drew};
ghost use Rattle.pen.specs.Counting.{trail_of};

use crate::counting::Trail;
use crate::drawn::{Drawn, NoRoom};
use crate::records::{BARE_RECORD, CURVE_RECORD, POINT_RECORD, Record, write_curve, write_point};
use fixed::Fixed;

#[derive(Clone, Copy, Debug, PartialEq, Eq)]
pub struct Point {
    pub x: Fixed,
    pub y: Fixed,
}

// What a call asks of the pen.
#[derive(Clone, Copy, Debug, PartialEq, Eq)]
pub enum Path {
    Move(Point),
    Line(Point),
    Curve(Point, Point, Point),
    Finish,
}

// A line that waits, in character space and on the device.
#[derive(Clone, Copy, Debug, PartialEq, Eq)]
pub struct WaitingLine {
    pub at: Point,
    pub device: Point,
}

// The start of the open path, in character space, and the line that waits.
#[derive(Clone, Copy, Debug, PartialEq, Eq)]
pub struct Pen {
    pub start: Option<Point>,
    pub waiting: Option<WaitingLine>,
}

impl Pen {
    pub fn new() -> Pen
        ensures { result ≡ new_pen }
    {
        Pen {
            start: None,
            waiting: None,
        }
    }

    // What of it decides how many words a call writes.
    fn trail(self) -> Trail
        ensures { result ≡ trail_of self }
    {
        Trail {
            start: self.start,
            waiting: self.waiting.map(|line| line.at),
        }
    }

    // How many words a flush writes.
    #[tactic(auto, using(crate::proofs::Counts::flush_counted))]
    fn flush_len(self) -> usize
        ensures { result ≡ length (flush_words self) }
    {
        self.trail().flush_count()
    }

    // Ports `flush_pending_line`.
    #[tactic(auto, unfolding(crate::specs::Strokes::flush_words, crate::specs::Records::written))]
    fn flush(self, out: &mut [i32])
        requires { length (flush_words self) ≤ length out.old }
        ensures { out.new ≡ written (flush_words self) out.old }
    {
        if let Some(line) = self.waiting {
            write_point(out, Record::Line, line.device);
        }
    }

    // How many words a close writes: none without a start, and no line that leads to the start.
    #[tactic(auto, using(crate::proofs::Counts::close_counted))]
    fn close_len(self) -> usize
        ensures { result ≡ length (closing_words self) }
    {
        self.trail().close_count()
    }

    // Ports `maybe_close_subpath`: nothing, a close alone, or a line and a close.
    fn close(self, out: &mut [i32])
        requires { length (closing_words self) ≤ length out.old }
        ensures { out.new ≡ written (closing_words self) out.old }
    {
        let count = self.close_len();
        if count == 0 {
            return;
        }
        if count == BARE_RECORD {
            out[0] = Record::Close as i32;
            return;
        }
        self.flush(out);
        out[POINT_RECORD] = Record::Close as i32;
    }

    // Where the words of a stroke do not fit, the pen stays as it is.
    fn refused(self) -> Drawn
        ensures { result ≡ record { pen = self; answer = Err (record {}) } }
    {
        Drawn {
            pen: self,
            answer: Err(NoRoom),
        }
    }

    // Ports `move_to`.
    pub fn move_to(self, at: Point, device: Point, out: &mut [i32]) -> Drawn
        ensures { Drew (move_of self at device) self out.old result out.new }
    {
        let closed = self.close_len();
        let count = closed + POINT_RECORD;
        if out.len() < count {
            return self.refused();
        }
        self.close(out);
        write_point(&mut out[closed..], Record::Move, device);
        Drawn {
            pen: Pen {
                start: Some(at),
                waiting: None,
            },
            answer: Ok(count),
        }
    }

    // Ports `line_to`.
    pub fn line_to(self, at: Point, device: Point, out: &mut [i32]) -> Drawn
        ensures { Drew (line_of self at device) self out.old result out.new }
    {
        let count = self.flush_len();
        if out.len() < count {
            return self.refused();
        }
        self.flush(out);
        Drawn {
            pen: Pen {
                waiting: Some(WaitingLine { at, device }),
                ..self
            },
            answer: Ok(count),
        }
    }

    // Ports `curve_to`.
    pub fn curve_to(self, first: Point, second: Point, end: Point, out: &mut [i32]) -> Drawn
        ensures { Drew (curve_of self first second end) self out.old result out.new }
    {
        let flushed = self.flush_len();
        let count = flushed + CURVE_RECORD;
        if out.len() < count {
            return self.refused();
        }
        self.flush(out);
        write_curve(&mut out[flushed..], first, second, end);
        Drawn {
            pen: Pen {
                waiting: None,
                ..self
            },
            answer: Ok(count),
        }
    }

    // Ports `finish`.
    pub fn finish(self, out: &mut [i32]) -> Drawn
        ensures { Drew (finish_of self) self out.old result out.new }
    {
        let closed = self.close_len();
        let count = closed + BARE_RECORD;
        if out.len() < count {
            return self.refused();
        }
        self.close(out);
        out[closed] = Record::Finish as i32;
        Drawn {
            pen: Pen::new(),
            answer: Ok(count),
        }
    }
}
