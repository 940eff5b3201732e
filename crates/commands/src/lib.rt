// The commands of a script (01, "The script"). The part of the script that a function takes, or the
// words, start at the first command word.
#![tactic(auto)]

mod faults;
mod reading;

pub use faults::{check_commands, fault_in};
pub use reading::{Command, Marking, Read, Words, operands, read_by, read_command, read_given};
