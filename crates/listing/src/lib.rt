// The edges of a map as records, for whoever draws the map over its glyph (request 2).
#![tactic(auto)]

mod answer;
mod as_words;
mod list;
mod record;
mod summary;

pub use answer::{ListAnswer, ListRoom, code, list_summary};
pub use as_words::{kind_number, list_words};
pub use list::list_edges;
pub use record::{EdgeRecord, SYNTHETIC};
pub use summary::{Summary, summarize};
