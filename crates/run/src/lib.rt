// A run of commands over a new drawing, into an output (01, "The script").
#![tactic(auto)]

mod hinting;
mod kept;
mod marks;
mod running;

pub use hinting::hints_after;
pub use kept::{KeptLists, Sizes};
pub use running::{Ran, run, run_given};
