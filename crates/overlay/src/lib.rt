// The edges of a script's map, to be drawn over its glyph (request 2).
#![tactic(auto)]

mod answer;
mod seeing;

pub use answer::{LookRefusal, SeenAnswer, code, place, summary};
pub use seeing::see_edges;
