// Where the fields of a script stand. The header's: B, T, D, the placing and L; the volume stands behind it.
pub const B_AT: usize = 0;

pub const T_AT: usize = 2;

pub const D_AT: usize = 4;

pub const PLACING_AT: usize = 5;

pub const L_AT: usize = 6;

pub const HEADER_BYTES: usize = 10;

pub const LONGEST_VOLUME: usize = 3145728;

// A call's, counted from its own first byte: function, parameter, F, and the control block with K behind it.
pub const FUNCTION_AT: usize = 0;

pub const PARAMETER_AT: usize = 1;

pub const F_AT: usize = 2;

pub const FCB_AT: usize = 3;

pub const K_BYTES: usize = 2;

// What of a call is not lent: function, parameter, F and K.
pub const HEAD_BYTES: usize = FCB_AT + K_BYTES;

// The largest F and K, and so the longest call.
pub const LONGEST_FCB: usize = 255;

pub const LONGEST_BUFFER: usize = 65535;

pub const LONGEST_CALL: usize = HEAD_BYTES + LONGEST_FCB + LONGEST_BUFFER;

// The function by which something else touches the volume; its control block begins with an offset of so many bytes.
pub const TOUCH: u8 = 0;

pub const OFFSET_BYTES: usize = 3;
