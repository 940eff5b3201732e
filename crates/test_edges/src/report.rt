// What the program says.
use crate::cases::{case, run_records, run_words};
use std::io;
use std::io::Read;
use test_tables::{end_of_cases, run_cases};

pub(crate) fn tables<R: Read>(rt: &impl Print, file: &mut R) -> io::Result<()> {
    for name in [
        "by hand",
        "kinds",
        "em box",
        "full maps",
        "rooms",
        "commands",
        "good scripts",
        "refused",
        "two faults",
        "drawn",
    ] {
        run_cases(rt, file, name, |file| case(file, run_words))?;
    }
    run_cases(rt, file, "of twelve", |file| case(file, run_records))?;
    end_of_cases(rt, file)
}
