// Function 59, load: a CMD file is read to its end, its groups are granted, and its image and the base page are laid into the
// memory. It stands above the file calls and the memory calls and relies on nothing below but their promises.
#![tactic(auto)]

use call_answers::Refusal;
use memory_calls::Table;

pub mod answers;
mod lay;
pub mod load;
mod page;

// Why a load is refused: a refusal of the file calls, or one of its own.
#[derive(Clone, Copy)]
pub enum LoadRefusal {
    File(Refusal),
    Rules,
    Header,
    Image,
    NoPlace,
    NoRoom,
}

// What a load hands back: the paragraph of the base page, or a refusal, and the table.
#[derive(Clone, Copy)]
pub struct LoadReply {
    pub answer: Result<usize, LoadRefusal>,
    pub table: Table,
}
