// A script is run, and what it leaves is compared with what is stored.
ghost use Rattle.std.specs.Prelude.{◌≡◌, ◌*◌, ◌≤◌, length};
ghost use Rattle.words.specs.Words.{raw_at, number_at};
ghost use Rattle.script.specs.Script.{script_of};
ghost use Rattle.test_scripts.specs.Judging.{lent, verdict_of};

use fixed::Fixed;
use script::run_script;
use std::fmt;
use std::fmt::Display;
use test_tables::first_word;
use words::{code, natural, number, place};

// Where a run first differs from what is stored.
#[derive(Clone, Copy, Debug, PartialEq, Eq)]
pub(crate) enum Difference {
    Number,
    Place,
    Word(usize),
}

impl Display for Difference {
    fn fmt<W: fmt::Write>(&self, f: &mut fmt::Formatter<W>) -> fmt::Result {
        match *self {
            Difference::Number => write!(f, "number"),
            Difference::Place => write!(f, "place"),
            Difference::Word(at) => write!(f, "word {at}"),
        }
    }
}

// 0x9E3779B1, as 32 bits with a sign.
const STEP: Fixed = Fixed { bits: -1640531535 };

// Lends the words: each is so much more than the one before it. A word is set by its number, as its
// definition does.
fn lend(out: &mut [i32], fill: Fixed)
    ensures { out.new ≡ lent fill (length out.old) out.old }
{
    let mut word = fill;
    for i in 0..out.len() {
        let bits = word.bits;
        out[i] = bits;
        word = word.add(STEP);
    }
}

// Runs a script. The six words of a case's header have the fill at 2, the number at 4 and the place
// at 5.
pub(crate) fn judged(
    head: &[u8],
    script: &[u8],
    stored: &[u8],
    out: &mut [i32],
) -> Option<Difference>
    requires { (24 ≤ length head.now) × (4 * length out.old ≤ length stored.now) }
    ensures { result ≡ verdict_of head.now stored.now
        (script_of script.now
        (lent (number_at (raw_at head.now) 2) (length out.old) out.old)) }
{
    lend(out, number(head, 2));
    let answer = run_script(script, out);
    if code(answer) as usize != natural(head, 4) {
        return Some(Difference::Number);
    }
    if place(answer) != natural(head, 5) {
        return Some(Difference::Place);
    }
    let first = first_word(out, stored);
    if first < out.len() {
        return Some(Difference::Word(first));
    }
    None
}
