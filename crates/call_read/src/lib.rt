// The reads, over what is lent to them.
#![tactic(auto)]

pub mod read;
