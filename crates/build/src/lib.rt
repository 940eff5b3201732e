// Building a map from stems, a mask and zones (01, "The map", last paragraph).
#![tactic(auto)]

mod ghosts;
mod initial;
mod map;
mod place;
mod save;

pub use initial::{build_initial, make_initial};
pub use map::{Built, build_map, make_map};
