// Lists the edges of scripts' maps whose records are stored, and says of each table how many were
// run and how many differ.
#![tactic(auto)]

mod cases;
mod judging;
mod lent;
mod records;
mod report;
mod row;

use std::fs::File;
use std::io;

// `python3 -m model` makes this file, from model/tables/edges.py, which says what of it is worked by
// hand; the rest comes from model/edges.py.
fn main(rt: HostRuntime) -> io::Result<()> {
    let mut file = File::open(&rt, "edges.bin")?;
    report::tables(&rt, &mut file)
}
