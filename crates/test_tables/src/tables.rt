// Tables of rows and of cases are run: the program hands over what it does with each.
use crate::cases::{case_count, case_cut};
use crate::report::{counts, row_differs};
use crate::rows::{next_count, next_row};
use crate::verdict::Tally;
use std::fmt::Display;
use std::io;
use std::io::Read;

// A row has fewer numbers.
const HELD_ROW: usize = 512;

// Runs a table of rows, the next of the input.
pub fn run_table<R: Read, F: Fn(&[i32]) -> bool>(
    rt: &impl Print,
    input: &mut R,
    name: &str,
    agrees: F,
) -> io::Result<()>
    requires { F.IsAlwaysCallable agrees }
{
    let count = next_count(input)?;
    let mut differ = 0;
    for i in 0..count {
        if !next_agrees(input, &agrees)? {
            row_differs(rt, name.as_bytes(), i)?;
            differ += 1;
        }
    }
    counts(rt, name.as_bytes(), count, differ)
}

// The input's next row is there, is not too long, and agrees.
fn next_agrees<R: Read, F: Fn(&[i32]) -> bool>(input: &mut R, agrees: &F) -> io::Result<bool>
    requires { F.IsAlwaysCallable agrees.now }
{
    let mut row = [0i32; HELD_ROW];
    let count = next_row(input, &mut row)?;
    Ok(0 < count && agrees(&row[..count]))
}

// Runs a table of cases, the next of the file, or those before the first that cannot be read. A case
// that is run gives what first differs from what is stored, if anything does.
pub fn run_cases<R: Read, D: Display + Drop, F: FnMut(&mut R) -> io::Result<Option<Option<D>>>>(
    rt: &impl Print,
    file: &mut R,
    name: &str,
    mut case: F,
) -> io::Result<()>
    requires { F.IsAlwaysCallable case }
{
    let count = case_count(file)?;
    let mut tally = Tally::none();
    for i in 0..count {
        let Some(difference) = case(file)? else {
            case_cut(rt, i)?;
            break;
        };
        tally = tally.with(rt, i, difference)?;
    }
    counts(rt, name.as_bytes(), tally.run, tally.differ)
}
