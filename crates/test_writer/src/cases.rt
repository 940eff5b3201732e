// What the cases of writing and of reading share.

// The bytes of the nine words that start a case.
pub(crate) const HEAD: usize = 36;

// There is place for more words and bytes than a script may have.
pub(crate) const HELD_WORDS: usize = 16400;

pub(crate) const HELD_BYTES: usize = 65600;
