// The words that start a case of reading. Behind them stand the parameters, the script, every word
// of the buffer for commands afterwards and every byte of that for masks.
pub(crate) const SCRIPT: usize = 0;

pub(crate) const ROOM_WORDS: usize = 1;

pub(crate) const ROOM_BYTES: usize = 2;

pub(crate) const FILL: usize = 3;

pub(crate) const NUMBER: usize = 4;

pub(crate) const PLACE: usize = 5;

pub(crate) const COMMANDS: usize = 6;

pub(crate) const MASKS: usize = 7;

pub(crate) const SCALE: usize = 8;

// The parameters are as many words as there can be.
pub(crate) const PARAMS: usize = 64;
