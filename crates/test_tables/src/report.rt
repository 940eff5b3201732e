// What the program says of a table.
use std::io;

// A row, counted from 0, has another value than the table expects.
pub fn row_differs(rt: &impl Print, name: &[u8], row: usize) -> io::Result<()> {
    rt.write_all(name)?;
    println!(rt; ": row {row} differs")
}

// How many rows were run, and how many of them differ.
pub fn counts(rt: &impl Print, name: &[u8], run: usize, differ: usize) -> io::Result<()> {
    rt.write_all(name)?;
    println!(rt; ": {run} run, {differ} differ")
}
