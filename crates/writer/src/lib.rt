// A script from what it is to say (request 1 of the licensees' paper 02): scale, parameters,
// command words and mask bytes.
#![tactic(auto)]

mod param_words;
mod parts;
mod pieces;
mod tests;
mod write_answer;
mod writing;

pub use param_words::params_from;
pub use pieces::{given_operands, is_mask};
pub use write_answer::{WriteAnswer, WriteRefusal, code, place, written};
pub use writing::write_script;
