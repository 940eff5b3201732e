// Runs scripts whose answers are stored, and says of each table how many were run and how many
// differ: tables made from 01, and a sample of the comparison with the Rust. Of the sample it says
// too how many end with each of 01's numbers, and to how many the Rust answers otherwise. Of both
// it says how many scripts are the same bytes when they are read back and written again.
#![tactic(auto)]

mod again;
mod again_tally;
mod cases;
mod judging;
mod report;

use std::fs::{File, Files};
use std::io;

fn main(rt: HostRuntime) -> io::Result<()> {
    tables(&rt)?;
    sample(&rt)
}

// `python3 -m model` makes this file, from model/tables/scripts.py. The answers of the first table
// are worked by hand from 01, those of the last from request 4. Numbers and places of the second to
// the ninth are written by hand from 01's table; the rest comes from model/script.py.
fn tables<R: Files + Print>(rt: &R) -> io::Result<()> {
    let mut file = File::open(rt, "scripts.bin")?;
    report::scripts(rt, &mut file)
}

// compare/ makes this file.
fn sample<R: Files + Print>(rt: &R) -> io::Result<()> {
    let mut file = File::open(rt, "sample.bin")?;
    report::sample(rt, &mut file)
}
