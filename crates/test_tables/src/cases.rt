// Cases in a file: tables one behind the other, each with the count of its cases in front, as words
// of four bytes. What a program says of a case, which it counts from 0.
use crate::rows::next_count;
use input::read_full;
use std::fmt::Display;
use std::io;
use std::io::Read;

// How many cases the next table has, none past the file's end.
pub fn case_count<R: Read>(file: &mut R) -> io::Result<usize> {
    next_count(file)
}

// Reads bytes, and says whether they are all there.
pub fn read_bytes<R: Read>(file: &mut R, bytes: &mut [u8]) -> io::Result<bool> {
    let read = read_full(file, bytes)?;
    Ok(read == bytes.len())
}

// Says so where the file does not end here.
pub fn end_of_cases<R: Read>(rt: &impl Print, file: &mut R) -> io::Result<()> {
    let mut byte = [0u8; 1];
    if read_full(file, &mut byte)? != 0 {
        println!(rt; "the file goes on after its last case")?;
    }
    Ok(())
}

// A case cannot be read.
pub fn case_cut(rt: &impl Print, i: usize) -> io::Result<()> {
    println!(rt; "case {i}: cut off or too large")
}

// What of a case first differs from what is stored.
pub fn case_differs(rt: &impl Print, i: usize, what: &[u8]) -> io::Result<()> {
    print!(rt; "case {i}: ")?;
    rt.write_all(what)?;
    println!(rt; " differs")
}

// The same of one of many, by its number.
pub fn case_differs_at(rt: &impl Print, i: usize, what: &[u8], at: usize) -> io::Result<()> {
    print!(rt; "case {i}: ")?;
    rt.write_all(what)?;
    println!(rt; "{at} differs")
}

// The same of what says itself where it differs.
pub(crate) fn case_differs_by<D: Display>(rt: &impl Print, i: usize, what: &D) -> io::Result<()> {
    println!(rt; "case {i}: {what} differs")
}
