// A write carried out: its stores, with no test in between, as long as a store is left.
#![tactic(auto)]

ghost use Rattle.std.specs.Prelude.{◌≡◌, ◌-◌, ◌<◌, length};
ghost use Rattle.disk_geometry.specs.Geometry.{slots, blocks};
ghost use Rattle.disk_volume.specs.CodeLent.{IsVolume, IsEntry, IsFcb, IsRecord};
ghost use Rattle.disk_stores.specs.Stores.{cut};
ghost use Rattle.call_fcb.specs.Fcb.{file_records, set_to};
ghost use Rattle.call_store.specs.Stores.{data_then_entry};

use disk_geometry::Geometry;

mod data;

// The stores of a write: the data, and then the directory record that holds its entry.
fn store_most(
    g: Geometry,
    fills: bool,
    volume: &mut [u8],
    buffer: &[u8],
    e: &[u8],
    slot: usize,
    block: usize,
    n: usize,
    left: &mut usize,
)
    requires volume { IsVolume g volume.old }
    requires fact { IsRecord buffer.now × IsEntry e.now }
    requires slot_bound { (slot < slots g) × (block < blocks g) }
    ensures volume_after { volume.new
        ≡ cut g volume.old left.old
        (data_then_entry g fills volume.old block n buffer.now slot e.now) }
    ensures left_after { left.new
        ≡ left.old
        - length (data_then_entry g fills volume.old block n buffer.now slot e.now) }
{
    data::put_filled(g, fills, volume, block, n, buffer, left);
    disk_stores::put_slot(g, volume, slot, e, left);
}

// All that a write changes: the volume, as long as a store is left, and the control block, which is set to record n.
pub fn carry_out(
    g: Geometry,
    fills: bool,
    volume: &mut [u8],
    fcb: &mut [u8],
    buffer: &[u8],
    e: &[u8],
    slot: usize,
    block: usize,
    n: usize,
    cr: u8,
    left: &mut usize,
)
    requires volume { IsVolume g volume.old }
    requires fcb { IsFcb fcb.old × (IsRecord buffer.now × IsEntry e.now) }
    requires slot_bound { (slot < slots g) × ((block < blocks g) × (n < file_records)) }
    ensures volume_after { volume.new
        ≡ cut g volume.old left.old
        (data_then_entry g fills volume.old block n buffer.now slot e.now) }
    ensures fcb_after { fcb.new ≡ set_to fcb.old e.now n cr }
    ensures left_after { left.new
        ≡ left.old
        - length (data_then_entry g fills volume.old block n buffer.now slot e.now) }
{
    store_most(g, fills, volume, buffer, e, slot, block, n, left);
    call_fcb::set_to(fcb, e, n, cr);
}
