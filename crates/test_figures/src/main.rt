// Runs the figures that are not theorems, and says of each table how many rows were run and how
// many differ. `python3 -m model` makes its input, from model/tables/figures.py. The expected
// values are those of the model of 01 there, in which no other code of the project takes part; its
// head says what had been read before it was written.
#![tactic(auto)]

mod captures;
mod edges;
mod masks;
mod operations;
mod states;

use std::io;

fn main(rt: HostRuntime) -> io::Result<()> {
    let mut input = rt.stdin();
    operations::run(&rt, &mut input)?;
    masks::run(&rt, &mut input)?;
    edges::run(&rt, &mut input)?;
    states::run(&rt, &mut input)?;
    captures::run(&rt, &mut input)
}
