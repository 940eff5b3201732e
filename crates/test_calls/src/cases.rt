// A row: a drawing is opened, and calls are made on it in turn.
ghost use Rattle.std.specs.Prelude.{◌+◌, ◌≤◌, ◌<◌, IfSome};

use crate::calls::{Call, drawn, hinted};
use crate::{lent, openings};
use hints::Drawing;
use pen::{NoRoom, Path};
use zones::HintState;

// What a call of a row leaves: the drawing, and where the row goes on.
#[derive(Clone, Copy)]
pub(crate) struct Turn {
    pub drawing: Drawing,
    pub next: usize,
}

// A row: a scale and parameters, the number of opening's answer, and the calls. No row has more
// than 400 numbers.
pub(crate) fn row_agrees(row: &[i32]) -> bool {
    if 400 < row.len() {
        return false;
    }
    let opened = openings::opened_by(row);
    let pairs = test_tables::after_pairs(row, 8);
    if openings::number_of(opened.answer) != test_tables::number(row, pairs) {
        return false;
    }
    let mut drawing = opened.drawing;
    let mut at = pairs + 1;
    while at < row.len() {
        let Some(turn) = call_at(opened.state, drawing, row, at) else {
            return false;
        };
        drawing = turn.drawing;
        at = turn.next;
    }
    at == row.len()
}

// The call at `at`: its kind, its operands and, for one that writes records, what is expected. None
// where that is not what it does.
fn call_at(state: HintState, drawing: Drawing, row: &[i32], at: usize) -> Option<Turn>
    requires { at ≤ 400 }
    ensures { IfSome result (λ turn. (at < turn.next) × (turn.next ≤ at + 40)) }
{
    let call = Call::read(row, at);
    let next = at + call.len(row, at);
    match call {
        Call::Draw(path) => drawn_at(state, drawing, path, row, next),
        Call::Hint(hinting) => Some(Turn {
            drawing: hinted(state, drawing, hinting),
            next,
        }),
    }
}

// A call that writes records, with what is expected from `at` on: the room, the number of its
// answer, the count of words and the words.
fn drawn_at(state: HintState, drawing: Drawing, path: Path, row: &[i32], at: usize) -> Option<Turn>
    requires { at ≤ 415 }
    ensures { IfSome result (λ turn. (at < turn.next) × (turn.next ≤ at + 20)) }
{
    let mut out = lent::FILLED;
    let end = 3 + test_tables::count(row, at, 16);
    let after = drawn(state, drawing, path, &mut out[3..end]);
    if !answer_agrees(after.answer, row, at + 1) || out != lent::expected(row, at + 2) {
        return None;
    }
    Some(Turn {
        drawing: after.drawing,
        next: at + 3 + test_tables::count(row, at + 2, 16),
    })
}

// From `at` on: the number of the answer and the count of words. A refused call answers 0 words.
fn answer_agrees(answer: Result<usize, NoRoom>, row: &[i32], at: usize) -> bool
    requires { at ≤ 1000 }
{
    let number = test_tables::number(row, at);
    let count = test_tables::count(row, at + 1, 16);
    match answer {
        Ok(n) => number == 0 && count == n,
        Err(NoRoom) => number == 6 && count == 0,
    }
}
