// Runs sequences of calls on drawings, and says of each table how many rows were run and how many
// differ. `python3 -m model` makes its input, from model/tables/calls.py. The answers of the first
// table are worked by hand from 01; those of the others come from model/calls.py. The head of
// model/ says what had been read before that was written.
#![tactic(auto)]

mod calls;
mod cases;
mod lent;
mod openings;

use std::io;

fn main(rt: HostRuntime) -> io::Result<()> {
    let mut input = rt.stdin();
    for name in [
        "worked by hand",
        "openings",
        "paths of three calls",
        "rooms",
        "stems",
        "masks",
        "counter masks",
        "clears",
        "refusals",
        "all calls",
        "ends of the range",
    ] {
        test_tables::run_table(&rt, &mut input, name, cases::row_agrees)?;
    }
    Ok(())
}
