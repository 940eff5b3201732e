// Rows of numbers and cases as the programs of figures read them, what they say of a table, where words
// differ from those that are stored, and how a case is judged.
#![tactic(auto)]

mod cases;
mod differing;
mod given;
mod report;
mod row;
mod rows;
mod tables;
mod verdict;

pub use cases::{case_count, case_cut, case_differs, case_differs_at, end_of_cases, read_bytes};
pub use differing::first_word;
pub use given::{after_pairs, kind_number, mask, params, state};
pub use input::read_full;
pub use report::{counts, row_differs};
pub use row::{count, fixed, flag, number};
pub use rows::{next_count, next_row};
pub use tables::{run_cases, run_table};
pub use verdict::{Difference, Tally, judge};
