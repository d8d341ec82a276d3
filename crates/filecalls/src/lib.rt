// The file calls: every call is a method of the drive state that takes the state and hands it back. Beneath it stands a method of
// the state's front, to which the held blocks are lent where the call takes or frees one.
#![tactic(auto)]

use call_answers::Answer;
use call_search::{PATTERN_BYTES, SearchKind};
use disk_geometry::Geometry;
use disk_held::WORDS;

mod asking;
mod changeable;
mod changing;
mod joining;
mod login;
mod names;
mod opening;
mod reads;
mod rewriting;
mod searching;
mod small;
mod state;
mod tests;
mod writes;

// More stores than any call makes: sixteen writes, each of a block's 32 records at most and of a directory record; a directory
// has at most 512 records.
pub const ENOUGH: usize = 16 * 33;

// A search that is kept between calls: its kind, the user and the pattern of its first call, and its last hit.
#[derive(Clone, Copy)]
pub struct KeptSearch {
    pub kind: SearchKind,
    pub user: u8,
    pub last: usize,
    pub pattern: [u8; PATTERN_BYTES],
}

// The state but for its held blocks: all that the calls look at which neither take a block nor free one.
#[derive(Clone, Copy)]
pub struct Front {
    pub geometry: Geometry,
    pub user: u8,
    pub protected: bool,
    pub search: KeptSearch,
}

// The drive's state.
#[derive(Clone, Copy)]
pub struct Drive {
    pub geometry: Geometry,
    pub user: u8,
    pub protected: bool,
    pub search: KeptSearch,
    pub held: [u64; WORDS],
}

// What a call answers, and the front of the state that it hands back.
#[derive(Clone, Copy)]
pub struct FrontReply {
    pub answer: Answer,
    pub front: Front,
}

// What a call answers, and the state that it hands back.
#[derive(Clone, Copy)]
pub struct Reply {
    pub answer: Answer,
    pub drive: Drive,
}
