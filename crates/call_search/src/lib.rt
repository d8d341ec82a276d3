// Search, over what is lent to it.
#![tactic(auto)]

pub mod search;

// How many bytes a pattern has: the name's eleven, and ex behind them.
pub const PATTERN_BYTES: usize = 12;

// What kind of search is open.
#[derive(Clone, Copy)]
pub enum SearchKind {
    Nothing,
    Pattern,
    Everything,
}
