// A whole label run: tests, zones made once, and the result.
ghost use Rattle.std.specs.Prelude.{◌≡◌};
ghost use Rattle.words.specs.Rows.{first_or};
ghost use Rattle.labels.specs.Labels.{label, open_rows, labels_of, Labelled};

use crate::counts::are_miscounted;
use crate::filling::fill;
use crate::label_answer::{LabelAnswer, LabelRefusal};
use crate::measure::measure;
use fixed::{Fixed, least};
use zones::{HintParams, HintState};

// The longest output that is looked at: every offset and length in it is a word.
const MOST_ROOM: usize = 2147483647;

// The scale and the counts. `Ok(0)` says that no test holds.
#[tactic(auto, unfolding(crate::specs::Labels::open_rows, words::specs::Rows::first_or))]
fn check_numbers(scale: Fixed, params: HintParams) -> LabelAnswer
    ensures { result ≡ first_or (Ok 0) (open_rows scale params) }
{
    if scale.bits < 1 {
        return Err(LabelRefusal::BadScale);
    }
    if !params.counts_fit() {
        return Err(LabelRefusal::BadBlues);
    }
    Ok(0)
}

// Hints a label into a lent output, or refuses and writes nothing.
#[tactic(auto, using(crate::proofs::Answering::answered), unfolding(crate::specs::Labels::labels_of))]
pub fn run_labels(
    scale: Fixed,
    params: HintParams,
    commands: &[i32],
    masks: &[u8],
    lengths: &[i32],
    out: &mut [i32],
) -> LabelAnswer
    ensures { Labelled
        (labels_of (label scale params commands.now masks.now lengths.now)
        out.old) result out.new }
{
    if are_miscounted(lengths, commands.len(), masks.len()) {
        return Err(LabelRefusal::RunCount);
    }
    check_numbers(scale, params)?;
    let words = measure(commands, masks, lengths, least(out.len(), MOST_ROOM))?;
    fill(commands, masks, lengths, HintState::new(params, scale), out);
    Ok(words)
}
