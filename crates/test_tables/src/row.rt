// A row and its numbers.
ghost use Rattle.std.specs.Prelude.{◌≡◌};
ghost use Rattle.test_tables.specs.Given.{number_in, fixed_in, flag_in, whole_of, count_in};

use fixed::Fixed;

// A number of the row, or 0 past its end.
pub fn number(row: &[i32], at: usize) -> i32
    ensures { result ≡ number_in row.now at }
{
    row.get(at).copied().unwrap_or(0)
}

pub fn flag(row: &[i32], at: usize) -> bool
    ensures { result ≡ flag_in row.now at }
{
    number(row, at) == 1
}

pub fn fixed(row: &[i32], at: usize) -> Fixed
    ensures { result ≡ fixed_in row.now at }
{
    Fixed {
        bits: number(row, at),
    }
}

// A number of the row as a count, at most so many.
pub fn count(row: &[i32], at: usize, most: usize) -> usize
    ensures { result ≡ count_in row.now at most }
{
    whole(number(row, at)).min(most)
}

// A number without a sign, 0 for one below 0.
fn whole(n: i32) -> usize
    ensures { result ≡ whole_of n }
{
    usize::try_from(n).unwrap_or(0)
}
