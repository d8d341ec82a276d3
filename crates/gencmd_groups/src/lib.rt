// The groups of a hex text: how far each reaches, how many paragraphs it has, and its bytes, each at its address, laid into a
// lent part.
#![tactic(auto)]

pub mod laying;
pub mod measuring;
pub mod sizing;

// A number for each group: how far it reaches, or how many paragraphs it has; 0 where it is not there.
#[derive(Clone, Copy, PartialEq, Eq, Debug)]
pub struct Groups {
    pub code: usize,
    pub data: usize,
    pub extra: usize,
    pub stack: usize,
}
