// A path call on a map and a pen alone, which is what a run of calls repeats.
ghost use Rattle.std.specs.Prelude.{◌≤◌};
ghost use Rattle.stems.specs.Edge.{max_hints};
ghost use Rattle.hintmap.specs.Lent.{Rising};
ghost use Rattle.pen.specs.Drawn.{Drew};
ghost use Rattle.hints.specs.Path.{stroke_by, PlacesBy, DrawsBy};

use fixed::Fixed;
use hintmap::{HintMap, transform};
use pen::{Drawn, Path, Pen, Point};
use stems::{LINES, MAX_HINTS, TAGS};

// Ports `hint` and `scale`: a character point on the device, by the lines of a map and its own
// scale. `in_order`: whether its heights are known to rise.
#[tactic(auto, unfolding(crate::specs::Hints::device_point))]
fn place(
    lines: &[i32; LINES],
    len: usize,
    base: Fixed,
    scale: Fixed,
    at: Point,
    in_order: bool,
) -> Point
    requires { (len ≤ max_hints) × Rising in_order lines.now len }
    ensures { PlacesBy lines.now len base scale at result }
{
    Point {
        x: at.x.mul(scale).trunc(),
        y: transform(lines, len, base, at.y, in_order).trunc(),
    }
}

// Draws by the lines of a map, with its own scale, into what is lent: all of the call's records or
// none.
pub fn draw_by_lines(
    lines: &[i32; LINES],
    len: usize,
    base: Fixed,
    scale: Fixed,
    pen: Pen,
    path: Path,
    out: &mut [i32],
    in_order: bool,
) -> Drawn
    requires { (len ≤ max_hints) × Rising in_order lines.now len }
    ensures { DrawsBy lines.now len base scale pen path out.old result out.new }
{
    match path {
        Path::Move(at) => pen.move_to(at, place(lines, len, base, scale, at, in_order), out),
        Path::Line(at) => pen.line_to(at, place(lines, len, base, scale, at, in_order), out),
        Path::Curve(first, second, end) => pen.curve_to(
            place(lines, len, base, scale, first, in_order),
            place(lines, len, base, scale, second, in_order),
            place(lines, len, base, scale, end, in_order),
            out,
        ),
        Path::Finish => pen.finish(out),
    }
}

// The same by a map, whose heights need not rise.
pub fn draw(map: HintMap, scale: Fixed, pen: Pen, path: Path, out: &mut [i32]) -> Drawn
    ensures { Drew (stroke_by map scale pen path) pen out.old result out.new }
{
    let mut lines = [0i32; LINES];
    let mut tags = [0u8; TAGS];
    map.list(&mut lines, &mut tags);
    let len = map.len.min(MAX_HINTS);
    draw_by_lines(&lines, len, map.scale, scale, pen, path, out, false)
}
