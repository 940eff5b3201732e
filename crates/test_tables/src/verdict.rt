// What first differs from what is stored for a case, and how many cases of a table differ.
ghost use Rattle.std.specs.Prelude.{◌≡◌, ◌*◌, ◌≤◌, length};
ghost use Rattle.test_tables.specs.Verdicts.{verdict_on};

use crate::cases::case_differs_by;
use crate::differing::first_word;
use std::fmt::Display;
use std::num::wrapping_add_usize;
use std::{fmt, io};

// So many differences of a table are said.
const MOST_SAID: usize = 10;

// The answer, or a word of what is left with it.
#[derive(Clone, Copy, Debug, PartialEq, Eq)]
pub enum Difference {
    Answer,
    Word(usize),
}

impl Display for Difference {
    fn fmt<W: fmt::Write>(&self, f: &mut fmt::Formatter<W>) -> fmt::Result {
        match *self {
            Difference::Answer => write!(f, "the answer"),
            Difference::Word(at) => write!(f, "word {at}"),
        }
    }
}

// What differs first where the answer is the stored one or not, on words that are left with it.
pub fn judge(same: bool, left: &[i32], stored: &[u8]) -> Option<Difference>
    requires { 4 * length left.now ≤ length stored.now }
    ensures { result ≡ verdict_on same left.now stored.now }
{
    if !same {
        return Some(Difference::Answer);
    }
    let first = first_word(left, stored);
    if first < left.len() {
        return Some(Difference::Word(first));
    }
    None
}

// How many cases were run, and how many of them differ.
#[derive(Clone, Copy, Debug, PartialEq, Eq)]
pub struct Tally {
    pub run: usize,
    pub differ: usize,
}

impl Tally {
    pub fn none() -> Tally {
        Tally { run: 0, differ: 0 }
    }

    // One case more, the case `i` of its table; says where it differs, if it does.
    pub fn with<D: Display + Drop>(
        self,
        rt: &impl Print,
        i: usize,
        difference: Option<D>,
    ) -> io::Result<Tally> {
        let mut tally = self;
        tally.run = wrapping_add_usize(tally.run, 1);
        if let Some(what) = difference {
            if tally.differ < MOST_SAID {
                case_differs_by(rt, i, &what)?;
            }
            tally.differ = wrapping_add_usize(tally.differ, 1);
        }
        Ok(tally)
    }
}
