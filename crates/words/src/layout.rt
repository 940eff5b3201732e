// The words of a script: how many there can be, and where they stand.
pub const MIN_SCRIPT_BYTES: usize = 32;

pub const MAX_SCRIPT_BYTES: usize = 65536;

pub const HEADER_WORDS: usize = 8;

// Four numbers and four counts; and those with four lists of seven pairs.
pub const MIN_PARAMS: usize = 8;

pub const MAX_PARAMS: usize = 64;

// What the first word of a script and of a result says.
pub const VERSION_ONE: usize = 1;

// Where the words of the header and of the parameters stand.
pub const VERSION: usize = 0;

pub const SCALE: usize = 1;

pub const PARAMS_START: usize = 2;

pub const PARAMS_COUNT: usize = 3;

pub const COMMANDS_START: usize = 4;

pub const COMMANDS_COUNT: usize = 5;

pub const MASKS_START: usize = 6;

pub const MASKS_COUNT: usize = 7;

pub const BLUE_SCALE: usize = 8;

pub const BLUE_SHIFT: usize = 9;

pub const BLUE_FUZZ: usize = 10;

pub const LANGUAGE_GROUP: usize = 11;

pub const BLUES_COUNT: usize = 12;

pub const OTHER_BLUES_COUNT: usize = 13;

pub const FAMILY_BLUES_COUNT: usize = 14;

pub const FAMILY_OTHER_BLUES_COUNT: usize = 15;

// The first pair of the blues; the other lists follow.
pub const PAIRS: usize = 16;
