// The volume: the directory's slots and their entries, names, and where a file's records stand.
#![tactic(auto)]

pub mod directory;
pub mod entry;
pub mod fields;
pub mod names;

// What a search of the directory looks for.
#[derive(Clone, Copy)]
pub enum Wanted {
    Any,
    Empty,
    File,
    ReadOnlyFile,
    Group(usize),
    Match,
    ReadOnlyMatch,
    MatchGroup(usize),
}
