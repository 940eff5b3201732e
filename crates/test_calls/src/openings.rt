// Opening a drawing by what a row gives.
use drawing::{OpenRefusal, Opened, open};

// A drawing at the row's scale and parameters, or the one beside a refusal. A list has up to eight
// pairs.
pub(crate) fn opened_by(row: &[i32]) -> Opened {
    open(test_tables::params(row, 8), test_tables::fixed(row, 1))
}

// The answer's number in 01's table.
pub(crate) fn number_of(answer: Result<(), OpenRefusal>) -> i32 {
    match answer {
        Ok(()) => 0,
        Err(OpenRefusal::BadScale) => 2,
        Err(OpenRefusal::BadBlues) => 3,
    }
}
