// The writes, over what is lent to them.
#![tactic(auto)]

mod rewrite;
pub mod write;

// The bytes of a write: those of a buffer, or those of the record as it stands, with the first two changed.
#[derive(Clone, Copy)]
pub enum Source<'a> {
    Buffer(&'a [u8]),
    Standing { low: u8, high: u8 },
}
