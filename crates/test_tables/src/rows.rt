// The input of a program: tables one behind the other, each with the count of its rows in front. A
// row starts with the count of its numbers. All are words of four bytes, the least byte first. Past
// the input's end there are only zeros.
ghost use Rattle.std.specs.Prelude.{◌≡◌, ◌≤◌, length, IfOk};

use input::read_full;
use std::io;
use std::io::Read;
use words::{natural, word};

// The next word as a count.
pub fn next_count<R: Read>(input: &mut R) -> io::Result<usize> {
    let mut bytes = [0u8; 4];
    read_full(input, &mut bytes)?;
    Ok(natural(&bytes, 0))
}

fn next_number<R: Read>(input: &mut R) -> io::Result<i32> {
    let mut bytes = [0u8; 4];
    read_full(input, &mut bytes)?;
    Ok(word(&bytes, 0))
}

// Reads the next row, and answers how many places it takes: one for the count, and one for each
// number. It takes none if it has no numbers, as past the input's end, or more than there is place
// for.
pub fn next_row<R: Read>(input: &mut R, row: &mut [i32]) -> io::Result<usize>
    ensures within { IfOk result (λ n. n ≤ length row.new) }
    ensures kept { length row.new ≡ length row.old }
{
    let count = next_count(input)?;
    if count == 0 || row.len() <= count {
        return Ok(0);
    }
    let end = count + 1;
    for place in &mut row[1..end] {
        *place = next_number(input)?;
    }
    Ok(end)
}
