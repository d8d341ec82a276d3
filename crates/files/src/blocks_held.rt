// The blocks that a file holds, over all of its entries.
ghost use Rattle.std.specs.Prelude.{◌≡◌, cond, ◌+◌, ◌*◌, ◌≤◌, ◌<◌};
ghost use Rattle.disk_geometry.specs.Geometry.{slots, places};
ghost use Rattle.disk_volume.specs.Name.{strip};
ghost use Rattle.disk_volume.specs.CodeLent.{VolumeAnd, IsName, IsEntry};
ghost use Rattle.files.specs.Files.{is_used, used_places, more_blocks, blocks_of};

use disk_geometry::Geometry;
use disk_volume::Wanted;

// 1 where place p of the entry's map names a block, else 0.
fn used_at(g: Geometry, e: &[u8], p: usize) -> usize
    requires { (p < places g) × IsEntry e.now }
    ensures { (result ≡ cond (is_used g e.now p) 1 0) × (result ≤ 1) }
{
    usize::from(disk_volume::entry::block_in(g, e, p) != 0)
}

// How many places of the entry's map name a block.
fn used_places(g: Geometry, e: &[u8]) -> usize
    requires { IsEntry e.now }
    ensures { (result ≡ used_places g e.now) × (result ≤ 16) }
{
    let mut used = 0;
    for p in 0..g.places() {
        used += used_at(g, e, p);
    }
    used
}

// m and the blocks that slot i holds for the file.
fn more_blocks(g: Geometry, volume: &[u8], user: u8, name: &[u8], m: usize, i: usize) -> usize
    requires volume_and { VolumeAnd g volume.now (IsName name.now) }
    requires i_bound { (i < slots g) × (m ≤ 16 * i) }
    ensures { (result ≡ more_blocks g volume.now user (strip name.now) m i)
        × (result ≤ 16 * (i + 1)) }
{
    let at = g.slot_start(i);
    if !disk_volume::entry::has(
        g,
        &volume[at..at + Geometry::ENTRY_BYTES],
        user,
        name,
        Wanted::File,
    ) {
        return m;
    }
    m + used_places(g, &volume[at..at + Geometry::ENTRY_BYTES])
}

// The blocks that the file holds.
pub fn blocks_of(g: Geometry, volume: &[u8], user: u8, name: &[u8]) -> usize
    requires { VolumeAnd g volume.now (IsName name.now) }
    ensures { result ≡ blocks_of g volume.now user (strip name.now) }
{
    let mut m = 0;
    for i in 0..g.slots() {
        m = more_blocks(g, volume, user, name, m, i);
    }
    m
}
