// Why a volume is refused, and which files it has, over lent bytes alone.
#![tactic(auto)]

ghost use Rattle.std.specs.Prelude.{◌≡◌};
ghost use Rattle.disk_geometry.specs.Geometry.{geometry_of, with_placing};
ghost use Rattle.seam_looks.specs.Fault.{explained, fault_at_seam};
ghost use Rattle.seam_looks.specs.File.{shown, file_at_seam};

use call_answers::{Answer, Refusal};
use filecalls::Drive;
use files::line;
use seam_words::{geometry, seal, size};

mod bad_slot;

// Logs the volume in as a log-in does, and says of a bad slot why it is bad; no drive is left.
pub fn fault(
    block_bytes: u32,
    blocks: u32,
    directory_blocks: u32,
    placing: u32,
    volume: &[u8],
    fault: &mut [u8],
) -> u32
    ensures { explained result fault.new
        ≡ fault_at_seam (with_placing (geometry_of block_bytes blocks directory_blocks) placing) volume.now
        fault.old }
{
    if fault.len() != bad_slot::FAULT_BYTES {
        return seal(Answer::Refused(Refusal::BufferLength));
    }
    let g = geometry(block_bytes, blocks, directory_blocks, placing);
    let reply = Drive::log_in(g, volume);
    bad_slot::put_fault_for(fault, g, volume, reply.answer);
    seal(reply.answer)
}

// Lays the line of the next file at or after slot `from`; its lowest slot is the value.
pub fn file(drive: &[u8], volume: &[u8], from: u32, file: &mut [u8]) -> u32
    ensures { shown result file.new
        ≡ file_at_seam drive.now volume.now from file.old }
{
    let d = drive_bytes::front(drive);
    if !d.is_open() {
        return seal(Answer::Refused(Refusal::Closed));
    }
    let g = d.geometry;
    if volume.len() != g.bytes() {
        return seal(Answer::Refused(Refusal::VolumeLength));
    }
    if file.len() != line::FILE_BYTES {
        return seal(Answer::Refused(Refusal::BufferLength));
    }
    let slot = files::next_file(g, volume, size(from));
    if g.slots() <= slot {
        return seal(Answer::Refused(Refusal::NoMatch));
    }
    line::put_file(file, g, volume, slot);
    seal(Answer::Ready(slot))
}
