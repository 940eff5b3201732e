// The calls on a drawing one at a time, and opening one without a script (01, "Path records" and
// what follows its table).
#![tactic(auto)]

mod calls;
mod opening;

pub use calls::{
    After, clear_hints, close, counter_mask, curve_to, finish, hint_mask, hstem, line_to, move_to,
};
pub use opening::{OpenRefusal, Opened, open};
