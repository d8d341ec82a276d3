// The seam to an emulator: log-in, every other call, a call that is cut off, why a volume is refused, which files it has, what
// volumes hold together, a fresh disk, the edition desk, the memory calls, load, and a hex text made a CMD file, over lent bytes
// alone. `churawel_c` exports each for C.
#![tactic(auto)]

ghost use Rattle.std.specs.Prelude.{◌≡◌, []};
ghost use Rattle.disk_geometry.specs.Geometry.{geometry_of, with_placing};
ghost use Rattle.memory_bytes.specs.Over.{over, memory_over};
ghost use Rattle.seam_calls.specs.Seam.{sealed, at_seam, log_in_at_seam, cut_at_seam};
ghost use Rattle.seam_looks.specs.Fault.{explained, fault_at_seam};
ghost use Rattle.seam_looks.specs.File.{shown, file_at_seam};
ghost use Rattle.seam_shelf.specs.Shelf.{shelf_sealed, shelf_at_seam};
ghost use Rattle.seam_fresh.specs.SeamFresh.{fresh_sealed, fresh_at_seam};
ghost use Rattle.seam_desk.specs.Sigla.{replaced, replace_at_seam, manuscript_at_seam};
ghost use Rattle.seam_memory.specs.Load.{started, load_at_seam};
ghost use Rattle.seam_gencmd.specs.Gencmd.{made, gencmd_at_seam};

// Logs the volume in: the drive becomes the state that calls take, or zero bytes where the log-in is refused.
pub fn churawel_log_in(
    block_bytes: u32,
    blocks: u32,
    directory_blocks: u32,
    placing: u32,
    volume: &[u8],
    drive: &mut [u8],
) -> u32
    ensures { sealed result drive.new volume.now [] []
        ≡ log_in_at_seam (with_placing (geometry_of block_bytes blocks directory_blocks) placing) volume.now
        drive.old }
{
    seam_calls::log_in(
        block_bytes,
        blocks,
        directory_blocks,
        placing,
        volume,
        drive,
    )
}

// Does the call of this function's number over the drive's bytes.
pub fn churawel_call(
    function: u8,
    parameter: u8,
    drive: &mut [u8],
    volume: &mut [u8],
    fcb: &mut [u8],
    buffer: &mut [u8],
) -> u32
    ensures { sealed result drive.new volume.new fcb.new buffer.new
        ≡ at_seam function parameter drive.old volume.old fcb.old buffer.old }
{
    seam_calls::call(function, parameter, drive, volume, fcb, buffer)
}

// Does the call of this function's number with at most so many stores, and closes the drive: the machine is gone. What is left
// is the volume, cut there.
pub fn churawel_cut(
    most: u32,
    function: u8,
    parameter: u8,
    drive: &mut [u8],
    volume: &mut [u8],
    fcb: &[u8],
    buffer: &[u8],
) -> u32
    ensures { sealed result drive.new volume.new fcb.now buffer.now
        ≡ cut_at_seam most function parameter drive.old volume.old fcb.now buffer.now }
{
    seam_calls::cut(most, function, parameter, drive, volume, fcb, buffer)
}

// Logs the volume in as `churawel_log_in` does, and says of a bad slot why it is bad; no drive is left.
pub fn churawel_fault(
    block_bytes: u32,
    blocks: u32,
    directory_blocks: u32,
    placing: u32,
    volume: &[u8],
    fault: &mut [u8],
) -> u32
    ensures { explained result fault.new
        ≡ fault_at_seam (with_placing (geometry_of block_bytes blocks directory_blocks) placing) volume.now
        fault.old }
{
    seam_looks::fault(
        block_bytes,
        blocks,
        directory_blocks,
        placing,
        volume,
        fault,
    )
}

// Lays the line of the next file at or after slot `from`; its lowest slot is the value.
pub fn churawel_file(drive: &[u8], volume: &[u8], from: u32, file: &mut [u8]) -> u32
    ensures { shown result file.new
        ≡ file_at_seam drive.now volume.now from file.old }
{
    seam_looks::file(drive, volume, from, file)
}

// Puts a volume on the shelf; where that is refused by 47 or 32 the shelf's bytes stay.
pub fn churawel_shelf(
    shelf: &mut [u8],
    block_bytes: u32,
    blocks: u32,
    directory_blocks: u32,
    placing: u32,
    volume: &[u8],
) -> u32
    ensures { shelf_sealed result shelf.new volume.now
        ≡ shelf_at_seam (with_placing (geometry_of block_bytes blocks directory_blocks) placing) volume.now
        shelf.old }
{
    seam_shelf::put_volume(
        shelf,
        block_bytes,
        blocks,
        directory_blocks,
        placing,
        volume,
    )
}

// Copies the first volume to the second in good order; refused, both stay as they are.
pub fn churawel_fresh_copy(
    block_bytes: u32,
    blocks: u32,
    directory_blocks: u32,
    placing: u32,
    first: &[u8],
    second: &mut [u8],
) -> u32
    ensures { fresh_sealed result first.now second.new
        ≡ fresh_at_seam (with_placing (geometry_of block_bytes blocks directory_blocks) placing) first.now
        second.old }
{
    seam_fresh::copy(
        block_bytes,
        blocks,
        directory_blocks,
        placing,
        first,
        second,
    )
}

// Replaces a siglum by another in one chapter of a collation file. A present record is rewritten in its place, so the drive stays as
// given.
pub fn churawel_replace_siglum(
    drive: &[u8],
    volume: &mut [u8],
    fcb: &[u8],
    chapter: u16,
    old_siglum: u16,
    new_siglum: u16,
) -> u32
    ensures { replaced result volume.new
        ≡ replace_at_seam drive.now volume.old fcb.now chapter old_siglum new_siglum }
{
    seam_desk::replace_siglum(drive, volume, fcb, chapter, old_siglum, new_siglum)
}

// Says which manuscript a siglum means: which list has its name, and where in that list the name begins.
pub fn churawel_manuscript(siglum: u16, own: &[u8], house: &[u8]) -> u64
    ensures { result ≡ manuscript_at_seam siglum own.now house.now }
{
    seam_desk::manuscript(siglum, own, house)
}

// Does a memory call over control block and table, in a memory of so many bytes.
pub fn churawel_memory(function: u8, mcb: &mut [u8], table: &mut [u8], memory_bytes: usize) -> u32
    ensures { over result mcb.new table.new ≡ memory_over function mcb.old table.old memory_bytes }
{
    seam_memory::memory_call(function, mcb, table, memory_bytes)
}

// Loads the CMD file that the control block names into the memory; the paragraph of the base page is the value.
pub fn churawel_load(
    drive: &[u8],
    volume: &[u8],
    fcb: &[u8],
    table: &mut [u8],
    memory: &mut [u8],
) -> u32
    ensures { started result table.new memory.new
        ≡ load_at_seam drive.now volume.now fcb.now table.old memory.old }
{
    seam_memory::load(drive, volume, fcb, table, memory)
}

// Writes the CMD file of a hex text into the first bytes of `out`; its length is in the high 32 bits.
pub fn churawel_gencmd(text: &[u8], out: &mut [u8]) -> u64
    ensures { made result out.new
        ≡ gencmd_at_seam text.now out.old }
{
    seam_gencmd::gencmd(text, out)
}
