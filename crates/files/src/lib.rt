// The files of a volume, each by its lowest slot.
#![tactic(auto)]

ghost use Rattle.std.specs.Prelude.{◌≡◌, ◌≤◌, ◌<◌};
ghost use Rattle.disk_geometry.specs.Geometry.{entry_bytes, slots};
ghost use Rattle.disk_volume.specs.Name.{strip};
ghost use Rattle.disk_volume.specs.CodeLent.{IsVolume, VolumeAnd, IsName, IsEntry};
ghost use Rattle.files.specs.Files.{is_listed, next_file, marked_at, is_marked};

use disk_geometry::Geometry;
use disk_volume::Wanted;
use disk_volume::fields::{EMPTY, NAME, NAME_END, USER};
use disk_volume::names::TOP_BIT;

pub mod blocks_held;
pub mod line;

// Does the entry in slot i stand for its file?
pub fn is_listed(g: Geometry, volume: &[u8], e: &[u8], i: usize) -> bool
    requires { VolumeAnd g volume.now (IsEntry e.now) }
    ensures { result ≡ is_listed g volume.now e.now i }
{
    let user = e[USER];
    if user == EMPTY {
        return false;
    }
    disk_volume::directory::find(g, volume, user, &e[NAME..NAME_END], Wanted::File) == i
}

// The lowest slot from `from` on that stands for its file; where none does, the larger of `from` and the number of slots.
pub fn next_file(g: Geometry, volume: &[u8], from: usize) -> usize
    requires { IsVolume g volume.now }
    ensures { result ≡ next_file g volume.now from }
{
    let n = g.slots();
    for i in from..n {
        let at = g.slot_start(i);
        if is_listed(g, volume, &volume[at..at + Geometry::ENTRY_BYTES], i) {
            return i;
        }
    }
    from.max(n)
}

// Is the entry in slot i one of the file, with a top bit on byte k?
fn marked_at(g: Geometry, volume: &[u8], user: u8, name: &[u8], k: usize, i: usize) -> bool
    requires volume_and { VolumeAnd g volume.now (IsName name.now) }
    requires k_lt_entry_bytes { (k < entry_bytes) × (i < slots g) }
    ensures { result ≡ marked_at g volume.now user (strip name.now) k i }
{
    let at = g.slot_start(i);
    if !disk_volume::entry::has(
        g,
        &volume[at..at + Geometry::ENTRY_BYTES],
        user,
        name,
        Wanted::File,
    ) {
        return false;
    }
    let e = &volume[at..at + Geometry::ENTRY_BYTES];
    TOP_BIT <= e[k]
}

// Has one of the file's entries a top bit on byte k?
pub fn is_marked(g: Geometry, volume: &[u8], user: u8, name: &[u8], k: usize) -> bool
    requires volume_and { VolumeAnd g volume.now (IsName name.now) }
    requires k_lt_entry_bytes { k < entry_bytes }
    ensures { result ≡ is_marked g volume.now user (strip name.now) k }
{
    for i in 0..g.slots() {
        if marked_at(g, volume, user, name, k, i) {
            return true;
        }
    }
    false
}
