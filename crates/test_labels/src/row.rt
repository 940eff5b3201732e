// The words that start a case. Behind them stand the words that are given, which are parameters,
// commands and lengths, every word of the output as it is lent, every word of it afterwards, and the
// mask bytes.
pub(crate) const PARAMS: usize = 0;

pub(crate) const COMMANDS: usize = 1;

pub(crate) const LENGTHS: usize = 2;

pub(crate) const OUTPUT: usize = 3;

pub(crate) const MASKS: usize = 4;

pub(crate) const NUMBER: usize = 5;

pub(crate) const GLYPH: usize = 6;

pub(crate) const PLACE: usize = 7;

pub(crate) const WRITTEN: usize = 8;

pub(crate) const SCALE: usize = 9;

// The bytes of these words.
pub(crate) const HEAD: usize = 40;
