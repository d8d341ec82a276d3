// The lines of a transcript: bytes in hex, the line of a call, the records that a run has changed.
#![tactic(auto)]

pub mod hex;
pub mod lines;
pub mod records;
