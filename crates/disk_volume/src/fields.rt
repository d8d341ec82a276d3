use disk_geometry::Geometry;

// Where the fields of an entry stand; a control block has the same fields at the same places, with dr in byte 0.
pub const USER: usize = 0;

pub const NAME: usize = 1;

pub const TYPE: usize = 9;

pub const EX: usize = 12;

pub const S1: usize = 13;

pub const S2: usize = 14;

pub const RC: usize = 15;

pub const MAP: usize = 16;

// The bytes whose top bits mark a read-only file and a system file.
pub const T1: usize = 9;

pub const T2: usize = 10;

// The same bytes within the eleven of name and type.
pub const NAME_T1: usize = T1 - NAME;

pub const NAME_T2: usize = T2 - NAME;

// How many bytes name and type have together; the first byte behind them, and behind the map.
pub const NAME_BYTES: usize = 11;

pub const NAME_END: usize = NAME + NAME_BYTES;

pub const MAP_END: usize = MAP + Geometry::MAP_BYTES;

// The first byte of an empty slot.
pub const EMPTY: u8 = 0xE5;
