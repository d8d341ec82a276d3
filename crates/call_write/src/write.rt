// The write of a record: decided first, by reading alone, and then carried out by stores with no test in between.
ghost use Rattle.std.specs.Prelude.{◌≡◌, ◌<◌, length, replicate};
ghost use Rattle.disk_held.specs.Held.{held_words, room};
ghost use Rattle.disk_geometry.specs.Geometry.{slots, blocks, record_bytes};
ghost use Rattle.disk_volume.specs.Name.{name_of};
ghost use Rattle.disk_volume.specs.CodeLent.{IsVolume, IsEntry, IsFcb};
ghost use Rattle.call_fcb.specs.Fcb.{file_records};
ghost use Rattle.call_write.specs.Write.{hold_if};
ghost use Rattle.call_write.specs.Rewrite.{bytes_of, source_length};
ghost use Rattle.call_write.specs.CodeWrite.{laid_bytes, Carried, Wrote};

use crate::{Source, rewrite};
use call_answers::Refusal;
use call_decide::WritePlan;
use disk_geometry::Geometry;
use disk_volume::fields;

// Block b is held from now on, if it is newly taken.
fn hold_if(held: &mut [u64], fresh: bool, b: usize)
    requires { b < room held.old }
    ensures { held.new ≡ hold_if fresh held.old b }
{
    if !fresh {
        return;
    }
    disk_held::hold(held, b);
}

// Carries out the write of record n that was decided, as long as a store is left: e is the entry that grows. If it `fills`, a
// block that the record's place is given is first filled with zeros.
fn write_decided(
    g: Geometry,
    fills: bool,
    volume: &mut [u8],
    fcb: &mut [u8],
    source: Source<'_>,
    e: &mut [u8],
    plan: WritePlan,
    held: &mut [u64],
    n: usize,
    cr: u8,
    left: &mut usize,
)
    requires volume { IsVolume g volume.old × (length held.old ≡ held_words) }
    requires fcb { IsFcb fcb.old × ((source_length source ≡ record_bytes) × (n < file_records)) }
    requires entry { IsEntry e.old × ((plan.slot < slots g) × (plan.block < blocks g)) }
    ensures { Carried g fills volume.old fcb.old
        (laid_bytes g volume.old e.old n plan.block source.entry (replicate record_bytes 0))
        held.old n cr left.old
        plan.slot plan.block plan.fresh e.old
        volume.new fcb.new held.new left.new }
{
    let mut bytes = [0u8; Geometry::RECORD_BYTES];
    rewrite::lay_bytes(g, volume, e, n, plan.block, source, &mut bytes);
    call_entry::write_entry(g, e, n, plan.block);
    let fill = fills & plan.fresh;
    call_store::carry_out(
        g, fill, volume, fcb, &bytes, e, plan.slot, plan.block, n, cr, left,
    );
    hold_if(held, plan.fresh, plan.block);
}

// Writes record n of the file that the control block names, as long as a store is left, and sets the control block to it,
// with this cr; or refuses, and alters nothing. If it `fills`, a block that the record's place is given is first filled with zeros.
// Its bytes are the buffer's, or those that a read shows, but for the first two.
pub fn write_record(
    g: Geometry,
    fills: bool,
    volume: &mut [u8],
    fcb: &mut [u8],
    source: Source<'_>,
    user: u8,
    held: &mut [u64],
    n: usize,
    cr: u8,
    left: &mut usize,
) -> Refusal
    requires volume { IsVolume g volume.old × (length held.old ≡ held_words) }
    requires fcb { IsFcb fcb.old × ((source_length source ≡ record_bytes) × (n < file_records)) }
    ensures { Wrote g fills volume.old fcb.old
        (bytes_of g volume.old user (name_of fcb.old) n source.entry)
        user held.old n cr left.old
        result volume.new fcb.new held.new left.new }
{
    let mut e = [0u8; Geometry::ENTRY_BYTES];
    let plan = call_decide::decide(
        g,
        volume,
        user,
        &fcb[fields::NAME..fields::NAME_END],
        held,
        n,
        &mut e,
    );
    if !call_answers::is_none(plan.why) {
        return plan.why;
    }
    write_decided(
        g, fills, volume, fcb, source, &mut e, plan, held, n, cr, left,
    );
    plan.why
}
