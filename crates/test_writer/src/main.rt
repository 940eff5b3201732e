// Writes and reads back scripts whose answers are stored, and says of each table how many were run
// and how many differ.
#![tactic(auto)]

mod cases;
mod comparing;
mod judging;
mod lending;
mod read_cases;
mod read_row;
mod report;
mod write_cases;
mod write_row;

use std::fs::File;
use std::io;

// `python3 -m model` makes this file, from model/tables/writer.py, which says what of it is worked
// by hand; the rest comes from model/writer.py.
fn main(rt: HostRuntime) -> io::Result<()> {
    let mut file = File::open(&rt, "writer.bin")?;
    report::tables(&rt, &mut file)
}
