// The seam for the memory calls 53 to 58 and for load, 59, over lent bytes alone.
#![tactic(auto)]

ghost use Rattle.std.specs.Prelude.{◌≡◌, ◌<◌};
ghost use Rattle.memory_bytes.specs.Over.{over, memory_over};
ghost use Rattle.loading.specs.Load.{value_of};
ghost use Rattle.seam_memory.specs.Load.{load_answered, started, load_at_seam};

use loading::{LoadRefusal, answers};
use seam_words::halves;

// Load's answer as one number: its number in the low 16 bits, the paragraph of the base page in the high 16.
fn seal_load(a: Result<usize, LoadRefusal>) -> u32
    requires { value_of a < 65536 }
    ensures { result ≡ load_answered a }
{
    let number = u16::from(answers::number(a));
    let value = answers::value(a) as u16;
    halves(number, value)
}

// Does a memory call over control block and table, in a memory of so many bytes.
pub fn memory_call(function: u8, mcb: &mut [u8], table: &mut [u8], bytes: usize) -> u32
    ensures { over result mcb.new table.new ≡ memory_over function mcb.old table.old bytes }
{
    u32::from(memory_bytes::memory_call(function, mcb, table, bytes))
}

// Loads the CMD file that the control block names into the memory; the paragraph of the base page is the value.
pub fn load(drive: &[u8], volume: &[u8], fcb: &[u8], table: &mut [u8], memory: &mut [u8]) -> u32
    ensures { started result table.new memory.new
        ≡ load_at_seam drive.now volume.now fcb.now table.old memory.old }
{
    let front = drive_bytes::front(drive);
    let answer = load_bytes::load(front, volume, fcb, table, memory);
    seal_load(answer)
}
