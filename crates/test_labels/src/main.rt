// Makes label runs whose results are stored, and says of each table how many were run and how many
// differ.
#![tactic(auto)]

mod cases;
mod judging;
mod report;
mod row;

use std::fs::File;
use std::io;

// `python3 -m model` makes this file, from model/tables/labels.py, which says what of it is worked by
// hand; the rest comes from model/labels.py.
fn main(rt: HostRuntime) -> io::Result<()> {
    let mut file = File::open(&rt, "labels.bin")?;
    report::tables(&rt, &mut file)
}
