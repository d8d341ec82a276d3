// Stores: whole records, one at a time, by one function, as long as a store is left.
#![tactic(auto)]

ghost use Rattle.std.specs.Prelude.{◌≡◌, [], ◌∷◌, ◌+◌, ◌-◌, ◌*◌, ◌≤◌, ◌<◌, length};
ghost use Rattle.lists.specs.Bytes.{put};
ghost use Rattle.disk_geometry.specs.Geometry.{entry_bytes, records, blocks, slots};
ghost use Rattle.disk_volume.specs.CodeLent.{IsVolume, IsEntry, IsRecord};
ghost use Rattle.disk_stores.specs.Stores.{store, cut, entry_stores};

use disk_geometry::Geometry;

// Stores logical record q, if a store is left: every changing call stores through this function.
pub fn store_record(g: Geometry, volume: &mut [u8], q: usize, sector: &[u8], left: &mut usize)
    requires volume { IsVolume g volume.old }
    requires q_bound { (q < blocks g * records g) × IsRecord sector.now }
    ensures volume_after { volume.new ≡ cut g volume.old left.old (store q sector.now ∷ []) }
    ensures left_after { left.new ≡ left.old - 1 }
{
    if *left == 0 {
        return;
    }
    let at = g.start(q);
    volume[at..at + Geometry::RECORD_BYTES].copy_from_slice(sector);
    *left -= 1;
}

// Lays an entry into slot i, by one store of the directory record that holds it.
pub fn put_slot(g: Geometry, volume: &mut [u8], i: usize, e: &[u8], left: &mut usize)
    requires volume { IsVolume g volume.old }
    requires i_bound { (i < slots g) × IsEntry e.now }
    ensures volume_after { volume.new
        ≡ cut g volume.old left.old (entry_stores g volume.old i e.now) }
    ensures left_after { left.new ≡ left.old - 1 }
{
    let r = i / Geometry::RECORD_SLOTS;
    let at = g.start(r);
    let mut sector = [0u8; Geometry::RECORD_BYTES];
    sector.copy_from_slice(&volume[at..at + Geometry::RECORD_BYTES]);
    let o = i % Geometry::RECORD_SLOTS * Geometry::ENTRY_BYTES;
    sector[o..o + Geometry::ENTRY_BYTES].copy_from_slice(&e[0..Geometry::ENTRY_BYTES]);
    store_record(g, volume, r, &sector, left);
}
