// The words that start a case of writing. Behind them stand the parameters, the commands, the mask
// bytes and every byte of the buffer afterwards.
pub(crate) const PARAMS: usize = 0;

pub(crate) const COMMANDS: usize = 1;

pub(crate) const MASKS: usize = 2;

pub(crate) const ROOM: usize = 3;

pub(crate) const FILL: usize = 4;

pub(crate) const NUMBER: usize = 5;

pub(crate) const PLACE: usize = 6;

pub(crate) const WRITTEN: usize = 7;

pub(crate) const SCALE: usize = 8;
