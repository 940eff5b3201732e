// A script read back as what the writer takes (request 1 of the licensees' paper 02), to be edited
// and written again.
#![tactic(auto)]

mod copies;
mod reading_back;

pub use reading_back::{ReadBack, read_back};
