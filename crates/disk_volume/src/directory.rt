// The directory: the lowest slot that has what is wanted.
ghost use Rattle.std.specs.Prelude.{◌≡◌, ◌≤◌, true};
ghost use Rattle.disk_geometry.specs.Geometry.{floppy, lawful, slots};
ghost use Rattle.disk_volume.specs.declared.Wanted.TheVariants.{Empty};
ghost use Rattle.disk_volume.specs.Name.{strip};
ghost use Rattle.disk_volume.specs.Directory.{find_from, find_slot};
ghost use Rattle.disk_volume.specs.CodeLent.{IsVolume, VolumeAnd, IsName};
ghost use Rattle.disk_volume.specs.CodeRun.{IsRun, run_entries, find_in};

use crate::{Wanted, entry};
use disk_geometry::Geometry;

// Of entries that lie one behind the other the lowest from `from` on that has what is wanted, their number where none has. The loop goes
// by bytes: a `for` over the entries' numbers was tried, and takes one instruction more for each slot, a fifth of the search for an
// empty one; by `step_by` it takes three more.
fn find_in(g: Geometry, entries: &[u8], from: usize, user: u8, name: &[u8], wanted: Wanted) -> usize
    requires g_value { (lawful g ≡ true) × IsRun entries.now }
    requires from_bound { (from ≤ run_entries entries.now) × IsName name.now }
    ensures { (result ≡ find_in g entries.now user (strip name.now) wanted from)
        × (result ≤ run_entries entries.now) }
{
    let end = entries.len();
    let mut at = from * Geometry::ENTRY_BYTES;
    while at != end {
        if entry::has(
            g,
            &entries[at..at + Geometry::ENTRY_BYTES],
            user,
            name,
            wanted,
        ) {
            return at / Geometry::ENTRY_BYTES;
        }
        at += Geometry::ENTRY_BYTES;
    }
    at / Geometry::ENTRY_BYTES
}

// The same; each thing that may be wanted has a search of its own, so that what is wanted is not asked again at every entry.
fn find_each(
    g: Geometry,
    entries: &[u8],
    from: usize,
    user: u8,
    name: &[u8],
    wanted: Wanted,
) -> usize
    requires g_value { (lawful g ≡ true) × IsRun entries.now }
    requires from_bound { (from ≤ run_entries entries.now) × IsName name.now }
    ensures { (result ≡ find_in g entries.now user (strip name.now) wanted from)
        × (result ≤ run_entries entries.now) }
{
    match wanted {
        Wanted::Any => find_in(g, entries, from, user, name, Wanted::Any),
        Wanted::Empty => find_in(g, entries, from, user, name, Wanted::Empty),
        Wanted::File => find_in(g, entries, from, user, name, Wanted::File),
        Wanted::ReadOnlyFile => find_in(g, entries, from, user, name, Wanted::ReadOnlyFile),
        Wanted::Group(k) => find_in(g, entries, from, user, name, Wanted::Group(k)),
        Wanted::Match => find_in(g, entries, from, user, name, Wanted::Match),
        Wanted::ReadOnlyMatch => find_in(g, entries, from, user, name, Wanted::ReadOnlyMatch),
        Wanted::MatchGroup(k) => find_in(g, entries, from, user, name, Wanted::MatchGroup(k)),
    }
}

// The lowest slot from `from` on of an eight-inch disk that has what is wanted, by the directory's records.
fn find_by_record(volume: &[u8], from: usize, user: u8, name: &[u8], wanted: Wanted) -> usize
    requires volume { IsVolume floppy volume.now }
    requires from_bound { (from ≤ slots floppy) × IsName name.now }
    ensures { (result ≡ find_from floppy volume.now user (strip name.now) wanted from) × (result ≤ slots floppy) }
{
    let g = Geometry::FLOPPY;
    let n = g.slots();
    let mut first = from % Geometry::RECORD_SLOTS;
    for r in from / Geometry::RECORD_SLOTS..n / Geometry::RECORD_SLOTS {
        let at = g.start(r);
        let k = find_each(
            g,
            &volume[at..at + Geometry::RECORD_BYTES],
            first,
            user,
            name,
            wanted,
        );
        if k < Geometry::RECORD_SLOTS {
            return r * Geometry::RECORD_SLOTS + k;
        }
        first = 0;
    }
    n
}

// The lowest slot from `from` on that has what is wanted, the number of slots where none has. On a straight volume the
// directory's entries lie one behind the other. This and `find` are kept small, so that a caller's loop is made for what it wants; and
// what they lend on for an eight-inch disk is copied there, so that no other search lays it down.
pub fn find_from(
    g: Geometry,
    volume: &[u8],
    from: usize,
    user: u8,
    name: &[u8],
    wanted: Wanted,
) -> usize
    requires volume { IsVolume g volume.now }
    requires from_bound { (from ≤ slots g) × IsName name.now }
    ensures { (result ≡ find_from g volume.now user (strip name.now) wanted from) × (result ≤ slots g) }
{
    if g.placing != Geometry::STRAIGHT {
        let own_name = name;
        let own_wanted = wanted;
        return find_by_record(volume, from, user, own_name, own_wanted);
    }
    let end = g.slots() * Geometry::ENTRY_BYTES;
    find_in(g, &volume[0..end], from, user, name, wanted)
}

// The lowest slot that has what is wanted, the number of slots where none has. That it calls `find_from` with 0 was tried: a search for
// a group, whose loop then isn't made for what it wants, takes four times the instructions.
pub fn find(g: Geometry, volume: &[u8], user: u8, name: &[u8], wanted: Wanted) -> usize
    requires { VolumeAnd g volume.now (IsName name.now) }
    ensures { (result ≡ find_slot g volume.now user (strip name.now) wanted) × (result ≤ slots g) }
{
    if g.placing != Geometry::STRAIGHT {
        let own_name = name;
        let own_wanted = wanted;
        return find_by_record(volume, 0, user, own_name, own_wanted);
    }
    let end = g.slots() * Geometry::ENTRY_BYTES;
    find_in(g, &volume[0..end], 0, user, name, wanted)
}

// The lowest empty slot, slot by slot. That the slots fill whole records is said here, since then those of a record are looked at
// at once.
fn empty_by_slots(g: Geometry, volume: &[u8], user: u8, name: &[u8]) -> usize
    requires { VolumeAnd g volume.now (IsName name.now) }
    ensures { (result ≡ find_from g volume.now user (strip name.now) Empty 0) × (result ≤ slots g) }
{
    let n = g.slots() / Geometry::RECORD_SLOTS * Geometry::RECORD_SLOTS;
    for i in 0..n {
        let at = g.slot_start(i);
        if entry::has(
            g,
            &volume[at..at + Geometry::ENTRY_BYTES],
            user,
            name,
            Wanted::Empty,
        ) {
            return i;
        }
    }
    n
}

// The lowest empty slot, the number of slots where none is: slot by slot, or where a slot's place is dear as any search.
pub fn find_empty(g: Geometry, volume: &[u8], user: u8, name: &[u8]) -> usize
    requires { VolumeAnd g volume.now (IsName name.now) }
    ensures { (result ≡ find_slot g volume.now user (strip name.now) Empty) × (result ≤ slots g) }
{
    if g.placing == Geometry::STRAIGHT {
        return empty_by_slots(g, volume, user, name);
    }
    find(g, volume, user, name, Wanted::Empty)
}
