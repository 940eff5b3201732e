// What the program says.
use crate::again_tally::AgainTally;
use crate::cases::{Judged, case};
use crate::judging::Difference;
use std::io;
use std::io::Read;
use std::num::wrapping_add_usize;
use test_tables::{end_of_cases, run_cases};

// The numbers of answers, in their order.
const NUMBERS: usize = 7;

// How many cases are marked, how many have each number, and what becomes of scripts.
#[derive(Clone, Copy)]
struct Totals {
    marked: usize,
    numbers: [usize; NUMBERS],
    again: AgainTally,
}

impl Totals {
    fn none() -> Totals {
        Totals {
            marked: 0,
            numbers: [0; NUMBERS],
            again: AgainTally::none(),
        }
    }

    // One case more.
    fn count(&mut self, judged: &Judged) {
        if judged.mark != 0 {
            self.marked = wrapping_add_usize(self.marked, 1);
        }
        if let Some(cases) = self.numbers.get_mut(judged.number) {
            *cases = wrapping_add_usize(*cases, 1);
        }
        self.again.count(judged.again);
    }

    fn say(&self, rt: &impl Print) -> io::Result<()> {
        let names = [
            "OK",
            "BAD_SCRIPT",
            "BAD_SCALE",
            "BAD_BLUES",
            "BAD_COMMAND",
            "BAD_MASK",
            "NO_ROOM",
        ];
        for (name, cases) in names.iter().zip(self.numbers.iter()) {
            println!(rt; "{name}: {cases}")?;
        }
        println!(rt; "marked, since the Rust answers otherwise: {}", self.marked)
    }
}

// The tables of scripts.
pub(crate) fn scripts<R: Read>(rt: &impl Print, file: &mut R) -> io::Result<()> {
    let mut totals = Totals::none();
    for name in [
        "the whole case",
        "lengths",
        "header",
        "padding",
        "parameters",
        "kinds",
        "operands cut off",
        "masks",
        "two faults",
        "rooms",
        "glyphs",
        "damaged copies",
        "the first family blue",
    ] {
        run_cases(rt, file, name, |file| counted(file, &mut totals))?;
    }
    end_of_cases(rt, file)?;
    totals.again.say(rt)
}

// The sample, which is one table.
pub(crate) fn sample<R: Read>(rt: &impl Print, file: &mut R) -> io::Result<()> {
    let mut totals = Totals::none();
    run_cases(rt, file, "sample", |file| counted(file, &mut totals))?;
    end_of_cases(rt, file)?;
    totals.say(rt)?;
    totals.again.say(rt)
}

// The next case is counted; none where it cannot be read.
fn counted<R: Read>(file: &mut R, totals: &mut Totals) -> io::Result<Option<Option<Difference>>> {
    let Some(judged) = case(file)? else {
        return Ok(None);
    };
    totals.count(&judged);
    Ok(Some(judged.difference))
}
