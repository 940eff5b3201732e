// A label run is made, and what comes of it is compared with what is stored.
ghost use Rattle.std.specs.Prelude.{◌≡◌, ◌*◌, ◌≤◌, length};
ghost use Rattle.words.specs.Words.{raw_at, number_at};
ghost use Rattle.writer.specs.ParamWords.{params_in};
ghost use Rattle.labels.specs.Labels.{label, labels_of};
ghost use Rattle.test_labels.specs.Judging.{same_answer, verdict_of};

use crate::row;
use labels::{LabelAnswer, run_labels};
use test_tables::{Difference, judge};
use words::{natural, number};
use writer::params_from;

// Makes the run.
pub(crate) fn judged(
    head: &[u8],
    params: &[i32],
    commands: &[i32],
    lengths: &[i32],
    masks: &[u8],
    stored: &[u8],
    out: &mut [i32],
) -> Option<Difference>
    requires { (40 ≤ length head.now) × (4 * length out.old ≤ length stored.now) }
    ensures { result ≡ verdict_of head.now stored.now
        (labels_of
        (label (number_at (raw_at head.now) 9) (params_in params.now) commands.now
        masks.now lengths.now)
        out.old) }
{
    let scale = number(head, row::SCALE);
    let answer = run_labels(scale, params_from(params), commands, masks, lengths, out);
    judge(same_answer(head, answer), out, stored)
}

fn same_answer(head: &[u8], answer: LabelAnswer) -> bool
    requires { 40 ≤ length head.now }
    ensures { result ≡ same_answer head.now answer }
{
    labels::code(answer) as usize == natural(head, row::NUMBER)
        && labels::glyph(answer) == natural(head, row::GLYPH)
        && labels::place(answer) == natural(head, row::PLACE)
        && labels::written(answer) == natural(head, row::WRITTEN)
}
