// A label run (request 5 of the licensees' paper 02): up to 64 glyphs under one set of parameters,
// hinted into one result.
#![tactic(auto)]

mod counts;
mod filling;
mod label_answer;
mod labelling;
mod measure;
mod survey;

pub use label_answer::{LabelAnswer, LabelRefusal, code, glyph, place, written};
pub use labelling::run_labels;
