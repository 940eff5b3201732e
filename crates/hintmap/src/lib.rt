// A hint map: edges in never-falling character height, by which heights are carried to the device
// (01, "The map").
#![tactic(auto)]

mod heights;
mod insert;
mod map;

pub use heights::transform;
pub use insert::{Edges, insert_edges};
pub use map::HintMap;
