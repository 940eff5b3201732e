// Runs the figures of maps and of their building, and says of each table how many rows were run and
// how many differ. `python3 -m model` makes its input, from model/tables/maps.py, with the expected
// values of model/hintmap.py. The head of model/ says what had been read before that was written.
#![tactic(auto)]

mod builds;
mod edges;
mod maps;
mod room;

use std::io;

fn main(rt: HostRuntime) -> io::Result<()> {
    let mut input = rt.stdin();
    room::run(&rt)?;
    maps::run(&rt, &mut input)?;
    builds::run(&rt, &mut input)
}
