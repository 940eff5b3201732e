// The words of a script (01, "The script"), and the answers that a script can get.
#![tactic(auto)]

mod answer;
pub mod layout;
mod read;
mod storing;

pub use answer::{Answer, Refusal, code, place};
pub use read::{natural, number, raw, read_words, word};
pub use storing::{copy_bytes, store, store_words};
