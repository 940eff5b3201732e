// The header and the parameters of a script (01, "The script").
#![tactic(auto)]

mod checks;
mod params;

pub use checks::{check_header, check_params};
pub use params::read_params;
