// Rename and attributes, over what is lent to them.
#![tactic(auto)]

pub mod rename;
