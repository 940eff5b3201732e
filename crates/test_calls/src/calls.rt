// One call of a row.
ghost use Rattle.std.specs.Prelude.{◌≤◌};

use drawing::{
    After, clear_hints, close, counter_mask, curve_to, finish, hint_mask, hstem, line_to, move_to,
};
use fixed::Fixed;
use hints::Drawing;
use pen::{Path, Point};
use stems::HintMask;
use zones::HintState;

// A call with its operands: one that writes records, or one that writes none.
#[derive(Clone, Copy)]
pub(crate) enum Call {
    Draw(Path),
    Hint(Hinting),
}

#[derive(Clone, Copy)]
pub(crate) enum Hinting {
    Stem(Fixed, Fixed),
    HintMask(HintMask),
    CounterMask(HintMask),
    Clear,
    Close,
}

impl Call {
    // The call that starts at a place. Its kind is that of a command of 01's scripts.
    pub(crate) fn read(row: &[i32], at: usize) -> Call
        requires { at ≤ 400 }
    {
        match test_tables::number(row, at) {
            1 => Call::Hint(Hinting::Stem(
                test_tables::fixed(row, at + 1),
                test_tables::fixed(row, at + 2),
            )),
            2 => Call::Hint(Hinting::HintMask(test_tables::mask(row, at + 1))),
            3 => Call::Hint(Hinting::CounterMask(test_tables::mask(row, at + 1))),
            4 => Call::Hint(Hinting::Clear),
            5 => Call::Draw(Path::Move(point(row, at + 1))),
            6 => Call::Draw(Path::Line(point(row, at + 1))),
            7 => Call::Draw(Path::Curve(
                point(row, at + 1),
                point(row, at + 3),
                point(row, at + 5),
            )),
            9 => Call::Draw(Path::Finish),
            _ => Call::Hint(Hinting::Close),
        }
    }

    // How many numbers it takes.
    pub(crate) fn len(self, row: &[i32], at: usize) -> usize
        requires { at ≤ 400 }
        ensures { (1 ≤ result) × (result ≤ 15) }
    {
        match self {
            Call::Draw(Path::Move(_) | Path::Line(_)) | Call::Hint(Hinting::Stem(_, _)) => 3,
            Call::Draw(Path::Curve(_, _, _)) => 7,
            Call::Hint(Hinting::HintMask(_) | Hinting::CounterMask(_)) => {
                2 + test_tables::count(row, at + 1, 13)
            }
            _ => 1,
        }
    }
}

// A call that writes records.
pub(crate) fn drawn(state: HintState, drawing: Drawing, path: Path, out: &mut [i32]) -> After {
    match path {
        Path::Move(at) => move_to(state, drawing, at, out),
        Path::Line(at) => line_to(state, drawing, at, out),
        Path::Curve(first, second, end) => curve_to(state, drawing, first, second, end, out),
        Path::Finish => finish(state, drawing, out),
    }
}

// A call that writes none.
pub(crate) fn hinted(state: HintState, drawing: Drawing, hinting: Hinting) -> Drawing {
    match hinting {
        Hinting::Stem(min, max) => hstem(state, drawing, min, max),
        Hinting::HintMask(mask) => hint_mask(state, drawing, mask),
        Hinting::CounterMask(mask) => counter_mask(state, drawing, mask),
        Hinting::Clear => clear_hints(state, drawing),
        Hinting::Close => close(state, drawing),
    }
}

fn point(row: &[i32], at: usize) -> Point
    requires { at ≤ 1100 }
{
    Point {
        x: test_tables::fixed(row, at),
        y: test_tables::fixed(row, at + 1),
    }
}
