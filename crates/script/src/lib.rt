// A whole script: checked, then run into a lent output (01, "The script").
#![tactic(auto)]

mod checking;
mod count;
mod maps;
mod whole;

pub use checking::check_script;
pub use maps::map_after;
pub use whole::run_script;
