// Size: the file's end by its entries.
#![tactic(auto)]

ghost use Rattle.std.specs.Prelude.{◌≡◌, ◌≤◌, ◌<◌, max};
ghost use Rattle.disk_geometry.specs.Geometry.{slots};
ghost use Rattle.disk_volume.specs.CodeLent.{IsVolume, VolumeAnd, IsEntry, IsFcb, IsName};
ghost use Rattle.disk_volume.specs.Name.{strip};
ghost use Rattle.disk_volume.specs.declared.Wanted.TheVariants.{File};
ghost use Rattle.disk_volume.specs.Directory.{slot_at, find_from, find_slot};
ghost use Rattle.call_answers.specs.Refusal.{unless_refused};
ghost use Rattle.call_size.specs.Size.{entry_end, larger, size_of};
ghost use Rattle.call_size.specs.CodeMeasure.{end_bound, measure_why, measured};

use call_answers::Refusal;
use disk_geometry::Geometry;
use disk_volume::Wanted;
use disk_volume::fields::{NAME, NAME_END};

// Where the file ends by this entry.
fn entry_end(e: &[u8]) -> usize
    requires { IsEntry e.now }
    ensures { (result ≡ entry_end e.now) × (result < end_bound) }
{
    let own = disk_volume::entry::extent_of(e);
    Geometry::EXTENT_RECORDS * own + usize::from(disk_volume::entry::count_of(e, own))
}

// The larger of m and the end by the entry in slot i.
fn larger_at(g: Geometry, volume: &[u8], m: usize, i: usize) -> usize
    requires volume { IsVolume g volume.now }
    requires i_bound { (i < slots g) × (m < end_bound) }
    ensures { (result ≡ max m (entry_end (slot_at g volume.now i))) × (result < end_bound) }
{
    let at = g.slot_start(i);
    let end = entry_end(&volume[at..at + Geometry::ENTRY_BYTES]);
    m.max(end)
}

// The larger of m and what slot i says of the file.
fn larger_of(g: Geometry, volume: &[u8], user: u8, name: &[u8], m: usize, i: usize) -> usize
    requires volume_and { VolumeAnd g volume.now (IsName name.now) }
    requires i_bound { (i < slots g) × (m < end_bound) }
    ensures { (result ≡ larger g volume.now user (strip name.now) m i) × (result < end_bound) }
{
    let at = g.slot_start(i);
    if !disk_volume::entry::has(
        g,
        &volume[at..at + Geometry::ENTRY_BYTES],
        user,
        name,
        Wanted::File,
    ) {
        return m;
    }
    larger_at(g, volume, m, i)
}

// The file's lowest entry from slot `from` on.
fn entry_from(g: Geometry, volume: &[u8], from: usize, user: u8, name: &[u8]) -> usize
    requires volume { IsVolume g volume.now }
    requires from_bound { (from ≤ slots g) × IsName name.now }
    ensures { (result ≡ find_from g volume.now user (strip name.now) File from) × (result ≤ slots g) }
{
    disk_volume::directory::find_from(g, volume, from, user, name, Wanted::File)
}

// The file's size in records, by every slot from its first entry on.
fn size_by_slots(g: Geometry, volume: &[u8], user: u8, name: &[u8], first: usize) -> usize
    requires volume_and { VolumeAnd g volume.now (IsName name.now) }
    requires first_value { first ≡ find_slot g volume.now user (strip name.now) File }
    ensures { (result ≡ size_of g volume.now user (strip name.now)) × (result < end_bound) }
{
    let n = g.slots();
    let mut m = 0;
    for i in first..n {
        m = larger_of(g, volume, user, name, m, i);
    }
    m
}

// The same from its first entry to the next and so on.
fn size_by_entries(g: Geometry, volume: &[u8], user: u8, name: &[u8], first: usize) -> usize
    requires volume_and { VolumeAnd g volume.now (IsName name.now) }
    requires first_value { first ≡ find_slot g volume.now user (strip name.now) File }
    ensures { (result ≡ size_of g volume.now user (strip name.now)) × (result < end_bound) }
{
    let n = g.slots();
    let mut m = 0;
    let mut i = first;
    // No count: from each entry of the file it jumps to the next.
    while i < n {
        m = larger_at(g, volume, m, i);
        i = entry_from(g, volume, i + 1, user, name);
    }
    m
}

// The same: by the slots, or where a slot's place is dear by the entries.
fn size_from(g: Geometry, volume: &[u8], user: u8, name: &[u8], first: usize) -> usize
    requires volume_and { VolumeAnd g volume.now (IsName name.now) }
    requires first_value { first ≡ find_slot g volume.now user (strip name.now) File }
    ensures { (result ≡ size_of g volume.now user (strip name.now)) × (result < end_bound) }
{
    if g.placing == Geometry::STRAIGHT {
        return size_by_slots(g, volume, user, name, first);
    }
    size_by_entries(g, volume, user, name, first)
}

// Answers the file's size in records.
pub fn size_of(g: Geometry, volume: &[u8], user: u8, name: &[u8]) -> usize
    requires { VolumeAnd g volume.now (IsName name.now) }
    ensures { (result ≡ size_of g volume.now user (strip name.now)) × (result < end_bound) }
{
    let first = disk_volume::directory::find(g, volume, user, name, Wanted::File);
    size_from(g, volume, user, name, first)
}

// Lays the file's size into the control block, or refuses. Answers why, None where it is laid.
pub fn measure(g: Geometry, volume: &[u8], fcb: &mut [u8], user: u8) -> Refusal
    requires { VolumeAnd g volume.now (IsFcb fcb.old) }
    ensures value { result ≡ measure_why g volume.now user fcb.old }
    ensures fcb_after { fcb.new
        ≡ unless_refused result (measured g volume.now user fcb.old) fcb.old }
{
    let first = disk_volume::directory::find(g, volume, user, &fcb[NAME..NAME_END], Wanted::File);
    let why = call_answers::refuse(Refusal::NoMatch, g.slots() <= first);
    if call_answers::is_none(why) {
        let size = size_from(g, volume, user, &fcb[NAME..NAME_END], first);
        call_fcb::set_random(fcb, size);
    }
    why
}
