// Several records of a drive: each call takes the state and hands it back. It is done by the state's front, with the held blocks
// beside it or lent to it.
ghost use Rattle.std.specs.Prelude.{◌≡◌};
ghost use Rattle.filecalls.specs.Outcome.{left};
ghost use Rattle.filecalls.specs.Leaves.{read_sequential_leaves, write_sequential_leaves};
ghost use Rattle.several.specs.Several.{several};

use filecalls::{Drive, ENOUGH, Reply};

// Function 220: reads k records at the sequential position, and moves it on.
pub fn read(state: Drive, volume: &[u8], fcb: &mut [u8], buffer: &mut [u8], k: u8) -> Reply
    ensures { left result volume.now fcb.new buffer.new
        ≡ several read_sequential_leaves state volume.now fcb.old buffer.old k }
{
    crate::read(state.front(), volume, fcb, buffer, k).joined(state.held)
}

// Function 221: writes k records at the sequential position, and moves it on.
pub fn write(state: Drive, volume: &mut [u8], fcb: &mut [u8], buffer: &[u8], k: u8) -> Reply
    ensures { left result volume.new fcb.new buffer.now
        ≡ several write_sequential_leaves state volume.old fcb.old buffer.now k }
{
    let mut held = state.held;
    let mut left = ENOUGH;
    let reply = crate::write_most(state.front(), &mut held, volume, fcb, buffer, k, &mut left);
    reply.joined(held)
}
