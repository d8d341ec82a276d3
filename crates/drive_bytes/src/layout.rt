// Where the fields stand in a drive's bytes, as in `specs/Layout`.
pub const BLOCK_BYTES_AT: usize = 0;

pub const BLOCKS_AT: usize = 2;

pub const DIRECTORY_BLOCKS_AT: usize = 4;

pub const USER_AT: usize = 6;

pub const PROTECTED_AT: usize = 7;

pub const SEARCH_AT: usize = 8;

pub const SEARCH_USER_AT: usize = 9;

pub const LAST_AT: usize = 10;

pub const PATTERN_AT: usize = 12;

pub const PLACING_AT: usize = 24;

pub const HELD_AT: usize = 32;

// How many held words stand there up to T 256; above it, all of a state's.
pub const NARROW_WORDS: usize = 4;
