// The reads: where record n lies, or the first refusal; then the record and the control block.
ghost use Rattle.std.specs.Prelude.{◌≡◌, true, false, ◌<◌};
ghost use Rattle.disk_geometry.specs.Geometry.{lawful, slots, blocks};
ghost use Rattle.disk_volume.specs.CodeLent.{VolumeAnd, IsEntry, IsFcb, IsName, IsRecord};
ghost use Rattle.disk_volume.specs.Name.{strip, name_of};
ghost use Rattle.disk_volume.specs.Directory.{slot_at};
ghost use Rattle.disk_volume.specs.Record.{counted, record_at};
ghost use Rattle.call_fcb.specs.Fcb.{file_records, set_to};
ghost use Rattle.call_answers.specs.Refusal.{is_none, first_met, unless_refused};
ghost use Rattle.call_read.specs.Read.{read_tests, read_fcb, read_bytes};
ghost use Rattle.call_read.specs.CodePlan.{plan_in, read_plan};

use call_answers::Refusal;
use disk_geometry::Geometry;
use disk_volume::Wanted;
use disk_volume::fields::{NAME, NAME_END};

// Where a record lies that can be read: the slot of its entry, and its block.
#[derive(Clone, Copy)]
pub struct ReadPlan {
    pub slot: usize,
    pub block: usize,
}

// Does the entry count record n, and is its place used?
pub fn is_counted(g: Geometry, e: &[u8], n: usize) -> bool
    requires { (lawful g ≡ true) × IsEntry e.now }
    ensures { result ≡ counted g e.now n }
{
    let count = usize::from(disk_volume::entry::count_of(e, n / Geometry::EXTENT_RECORDS));
    let block = disk_volume::entry::block_in(g, e, g.place(n));
    (n % Geometry::EXTENT_RECORDS < count) & (block != 0)
}

// Record n by the entry in this slot: 1, 41, or where it lies.
fn plan_in(g: Geometry, volume: &[u8], slot: usize, n: usize) -> Result<ReadPlan, Refusal>
    requires { VolumeAnd g volume.now (slot < slots g) }
    ensures { result ≡ plan_in g volume.now slot n }
{
    let at = g.slot_start(slot);
    if !is_counted(g, &volume[at..at + Geometry::ENTRY_BYTES], n) {
        return Err(Refusal::Absent);
    }
    let block = disk_volume::entry::block_in(
        g,
        &volume[at..at + Geometry::ENTRY_BYTES],
        g.place(n),
    );
    if !g.is_inside(block) {
        return Err(Refusal::Outside);
    }
    Ok(ReadPlan { slot, block })
}

// Record n of the file: the first refusal, or where it lies.
fn plan(
    g: Geometry,
    volume: &[u8],
    user: u8,
    name: &[u8],
    n: usize,
    missing: Refusal,
) -> Result<ReadPlan, Refusal>
    requires volume_and { VolumeAnd g volume.now (IsName name.now) }
    requires missing_value { is_none missing ≡ false }
    ensures { result ≡ read_plan g volume.now user (strip name.now) n missing }
{
    let count = g.slots();
    let group = g.group(n / Geometry::EXTENT_RECORDS);
    let slot = disk_volume::directory::find(g, volume, user, name, Wanted::Group(group));
    if slot < count {
        return plan_in(g, volume, slot, n);
    }
    let file = disk_volume::directory::find(g, volume, user, name, Wanted::File);
    if file < count {
        return Err(missing);
    }
    Err(Refusal::NoFile)
}

// The record goes to the buffer, and the control block is set to it.
fn act(
    g: Geometry,
    volume: &[u8],
    fcb: &mut [u8],
    buffer: &mut [u8],
    slot: usize,
    block: usize,
    n: usize,
    cr: u8,
)
    requires volume_and { VolumeAnd g volume.now (IsFcb fcb.old × IsRecord buffer.old) }
    requires slot_bound { (slot < slots g) × ((block < blocks g) × (n < file_records)) }
    ensures fcb_after { fcb.new ≡ set_to fcb.old (slot_at g volume.now slot) n cr }
    ensures buffer_after { buffer.new ≡ record_at g volume.now block n }
{
    let at = g.record_start(block, n);
    buffer.copy_from_slice(&volume[at..at + Geometry::RECORD_BYTES]);
    let from = g.slot_start(slot);
    call_fcb::set_to(fcb, &volume[from..from + Geometry::ENTRY_BYTES], n, cr);
}

// Reads record n of the file in the control block: answers the first refusal, None where the record was read.
pub fn read_record(
    g: Geometry,
    volume: &[u8],
    fcb: &mut [u8],
    buffer: &mut [u8],
    user: u8,
    n: usize,
    cr: u8,
    missing: Refusal,
) -> Refusal
    requires volume_and { VolumeAnd g volume.now (IsFcb fcb.old × IsRecord buffer.old) }
    requires n_lt_file_records { (n < file_records) × (is_none missing ≡ false) }
    ensures value { result ≡ first_met (read_tests g volume.now user (name_of fcb.old) n missing) }
    ensures fcb_after { fcb.new
        ≡ unless_refused result (read_fcb g volume.now user fcb.old n cr) fcb.old }
    ensures buffer_after { buffer.new
        ≡ unless_refused result (read_bytes g volume.now user (name_of fcb.old) n) buffer.old }
{
    match plan(g, volume, user, &fcb[NAME..NAME_END], n, missing) {
        Ok(plan) => {
            act(g, volume, fcb, buffer, plan.slot, plan.block, n, cr);
            Refusal::None
        }
        Err(why) => why,
    }
}
