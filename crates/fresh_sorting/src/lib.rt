// The order of a fresh disk's entries: files by their lowest slot, a file's entries by rising extent. Each entry has one number for
// both, and the numbers are entered one by one among those that are in order.
#![tactic(auto)]

ghost use Rattle.std.specs.Prelude.{◌≡◌, ◌+◌, ◌<◌, length, take};
ghost use Rattle.disk_geometry.specs.Geometry.{slots};
ghost use Rattle.disk_volume.specs.CodeLent.{VolumeAnd, IsEntry};
ghost use Rattle.fresh_order.specs.CodeKeys.{most_slots, entered, Rising};
ghost use Rattle.fresh_sorting.specs.CodeKept.{key_in, InOrder, IsAccepted};

use disk_geometry::Geometry;
use disk_volume::{Wanted, directory, entry, fields};

// Extents of a file, and slots of the largest directory.
const FILE_EXTENTS: usize = 512;

pub const MOST_SLOTS: usize = 2048;

// The number of the entry e, which stands in slot i.
fn key_of(g: Geometry, volume: &[u8], e: &[u8], i: usize) -> usize
    requires volume_and { VolumeAnd g volume.now (IsEntry e.now) }
    requires i_lt_most_slots { i < most_slots }
    ensures { result ≡ key_in g volume.now e.now i }
{
    let file = directory::find(
        g,
        volume,
        e[fields::USER],
        &e[fields::NAME..fields::NAME_END],
        Wanted::File,
    );
    (file * FILE_EXTENTS + entry::extent_of(e)) * MOST_SLOTS + i
}

// Enters a number among the m lowest, which rise: those that are not below it move up by one place.
fn enter(kept: &mut [usize], m: usize, key: usize)
    requires { (m < length kept.old) × Rising (take m kept.old) }
    ensures kept_after { take (m + 1) kept.new ≡ entered (take m kept.old) key }
    ensures kept_len_unchanged { length kept.new ≡ length kept.old }
{
    for k in (0..m).rev() {
        let lower = kept[k];
        if lower < key {
            kept[k + 1] = key;
            return;
        }
        kept[k + 1] = lower;
    }
    kept[0] = key;
}

// Enters slot i among the m that are in order, unless it is empty; how many there are then.
fn enter_slot(g: Geometry, volume: &[u8], i: usize, kept: &mut [usize], m: usize) -> usize
    requires accepted { IsAccepted g volume.now }
    requires i_bound { (i < slots g) × InOrder g volume.now i kept.old m }
    ensures { InOrder g volume.now (i + 1) kept.new result }
{
    let at = g.slot_start(i);
    let e = &volume[at..at + Geometry::ENTRY_BYTES];
    if e[fields::USER] == fields::EMPTY {
        return m;
    }
    let key = key_of(g, volume, e, i);
    enter(kept, m, key);
    m + 1
}

// The numbers of all entries in order, in the lowest places; how many there are.
pub fn order_of(g: Geometry, volume: &[u8], kept: &mut [usize]) -> usize
    requires accepted { IsAccepted g volume.now }
    requires kept_len { length kept.old ≡ most_slots }
    ensures { InOrder g volume.now (slots g) kept.new result }
{
    let mut m = 0;
    for i in 0..g.slots() {
        m = enter_slot(g, volume, i, kept, m);
    }
    m
}
