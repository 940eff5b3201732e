// The calls on a drawing. One that writes records does all of its work or none.
ghost use Rattle.std.specs.Prelude.{◌≡◌, true};
ghost use Rattle.pen.specs.declared.strokes.Path.TheVariants.{Move, Line, Curve, Finish};
ghost use Rattle.hints.specs.Path.{has_point};
ghost use Rattle.hints.specs.Calls.{next_of, stem, hint_mask, counter_mask, clear, close, draw};
ghost use Rattle.drawing.specs.After.{Called, settled_by};

use fixed::Fixed;
use hintmap::HintMap;
use hints::{Drawing, Hints, draw};
use pen::{Drawn, NoRoom, Path, Point};
use stems::HintMask;
use zones::HintState;

#[derive(Clone, Copy)]
pub struct After {
    pub drawing: Drawing,
    pub answer: Result<usize, NoRoom>,
}

// The drawing with other hints.
fn with_hints(drawing: Drawing, hints: Hints) -> Drawing
    ensures { result ≡ record { hints = hints; pen = drawing.pen } }
{
    Drawing { hints, ..drawing }
}

// Ports `hstem`.
pub fn hstem(state: HintState, drawing: Drawing, min: Fixed, max: Fixed) -> Drawing
    ensures { result ≡ next_of state drawing (stem min max) }
{
    with_hints(drawing, drawing.hints.with_stem(min, max))
}

// Ports `hint_mask`.
pub fn hint_mask(state: HintState, drawing: Drawing, mask: HintMask) -> Drawing
    ensures { result ≡ next_of state drawing (hint_mask mask) }
{
    with_hints(drawing, drawing.hints.with_mask(mask))
}

// Ports `counter_mask`.
pub fn counter_mask(state: HintState, drawing: Drawing, mask: HintMask) -> Drawing
    ensures { result ≡ next_of state drawing (counter_mask mask) }
{
    with_hints(drawing, drawing.hints.counter(state, mask))
}

// Ports `clear_hints`: the open path stays.
pub fn clear_hints(state: HintState, drawing: Drawing) -> Drawing
    ensures { result ≡ next_of state drawing clear }
{
    with_hints(drawing, Hints::new(state.scale))
}

// Ports `close`, which does nothing: a move and a finish close.
pub fn close(state: HintState, drawing: Drawing) -> Drawing
    ensures { result ≡ next_of state drawing close }
{
    drawing
}

// A call that had no room leaves the drawing as it came, its hints too.
fn settle(drawing: Drawing, hints: Hints, drawn: Drawn) -> After
    ensures { result ≡ settled_by drawn.answer drawing hints drawn.pen }
{
    let answer = drawn.answer;
    match answer {
        Ok(_) => After {
            drawing: Drawing {
                hints,
                pen: drawn.pen,
            },
            answer,
        },
        Err(_) => After { drawing, answer },
    }
}

// A call with a point has the current map built first. By a valid one it goes without looking at
// the hints again.
fn by_path(state: HintState, drawing: Drawing, path: Path, out: &mut [i32]) -> After
    requires { has_point path ≡ true }
    ensures { Called state drawing (draw path) out.old result out.new }
{
    if drawing.hints.map.is_valid {
        let Drawn { pen, answer } = draw(drawing.hints.map, state.scale, drawing.pen, path, out);
        return After {
            drawing: Drawing { pen, ..drawing },
            answer,
        };
    }
    let ready = drawing.hints.ready(state);
    let drawn = draw(ready.map, state.scale, drawing.pen, path, out);
    settle(drawing, ready, drawn)
}

// Ports `move_to`.
pub fn move_to(state: HintState, drawing: Drawing, at: Point, out: &mut [i32]) -> After
    ensures { Called state drawing (draw (Move at)) out.old result out.new }
{
    by_path(state, drawing, Path::Move(at), out)
}

// Ports `line_to`.
pub fn line_to(state: HintState, drawing: Drawing, at: Point, out: &mut [i32]) -> After
    ensures { Called state drawing (draw (Line at)) out.old result out.new }
{
    by_path(state, drawing, Path::Line(at), out)
}

// Ports `curve_to`.
pub fn curve_to(
    state: HintState,
    drawing: Drawing,
    first: Point,
    second: Point,
    end: Point,
    out: &mut [i32],
) -> After
    ensures { Called state drawing (draw (Curve first second end)) out.old result out.new }
{
    by_path(state, drawing, Path::Curve(first, second, end), out)
}

// Ports `finish`. It has no point, so any map serves.
pub fn finish(state: HintState, drawing: Drawing, out: &mut [i32]) -> After
    ensures { Called state drawing (draw Finish) out.old result out.new }
{
    let map = HintMap::new(state.scale);
    let drawn = draw(map, state.scale, drawing.pen, Path::Finish, out);
    settle(drawing, drawing.hints, drawn)
}
