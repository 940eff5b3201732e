// Records with points, written to the start of what is lent.
ghost use Rattle.std.specs.Prelude.{◌≡◌, ◌∷◌, ◌++◌, ◌≤◌, pos, length};
ghost use Rattle.pen.specs.Records.{written, kind_of};
ghost use Rattle.pen.specs.Strokes.{point_words};

use crate::strokes::Point;

// The kinds of records, each with its first word.
#[derive(Clone, Copy, Debug, PartialEq, Eq)]
pub enum Record {
    Move = 1,
    Line = 2,
    Curve = 3,
    Close = 4,
    Finish = 5,
}

// The words of a record: its kind, and two for each point.
pub const BARE_RECORD: usize = 1;

pub const POINT_RECORD: usize = 3;

pub const CURVE_RECORD: usize = 7;

// A move or a line.
#[tactic(auto, unfolding(crate::specs::Records::written))]
pub(crate) fn write_point(out: &mut [i32], kind: Record, p: Point)
    requires { 3 ≤ length out.old }
    ensures { out.new ≡ written (kind_of kind ∷ point_words p) out.old }
{
    out[..POINT_RECORD].copy_from_slice(&[kind as i32, p.x.bits, p.y.bits]);
}

#[tactic(auto, unfolding(crate::specs::Records::written))]
pub(crate) fn write_curve(out: &mut [i32], first: Point, second: Point, end: Point)
    requires { 7 ≤ length out.old }
    ensures { out.new ≡
        written (pos 3 ∷ point_words first ++ point_words second ++ point_words end) out.old }
{
    out[..CURVE_RECORD].copy_from_slice(&[
        Record::Curve as i32,
        first.x.bits,
        first.y.bits,
        second.x.bits,
        second.y.bits,
        end.x.bits,
        end.y.bits,
    ]);
}
