// A drawing: its hints, and the strokes that its current map carries (01, "Stems and masks", "The
// map", "Path records").
#![tactic(auto)]

mod drawing;
mod hints;
mod path;

pub use drawing::Drawing;
pub use hints::Hints;
pub use path::{draw, draw_by_lines};
