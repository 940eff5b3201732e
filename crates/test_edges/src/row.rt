// The words that start a case. Behind them stand the script, every word of the list as it is lent,
// and every word of it afterwards.
pub(crate) const SCRIPT: usize = 0;

// The commands are counted in two words, the low one first.
pub(crate) const COMMANDS: usize = 1;

pub(crate) const COMMANDS_HIGH: usize = 2;

pub(crate) const LIST: usize = 3;

pub(crate) const NUMBER: usize = 4;

pub(crate) const PLACE: usize = 5;

pub(crate) const EDGES: usize = 6;

pub(crate) const PAIRS: usize = 7;

pub(crate) const GHOSTS: usize = 8;

pub(crate) const LOCKED: usize = 9;

// The bytes of these words.
pub(crate) const HEAD: usize = 40;
