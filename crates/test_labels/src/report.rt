// What the program says.
use crate::cases::case;
use std::io;
use std::io::Read;
use test_tables::{end_of_cases, run_cases};

pub(crate) fn tables<R: Read>(rt: &impl Print, file: &mut R) -> io::Result<()> {
    for name in [
        "by hand",
        "apart",
        "lengths",
        "scale and counts",
        "commands",
        "masks",
        "two faults",
        "rooms",
        "groups",
    ] {
        run_cases(rt, file, name, |file| case(file))?;
    }
    end_of_cases(rt, file)
}
