// Delete: the tests that look at the directory, and the blocks of the entries that match.
#![tactic(auto)]

ghost use Rattle.std.specs.Prelude.{◌≡◌, true, cond, ◌-◌, ◌<◌, ◌≤◌, length};
ghost use Rattle.disk_volume.specs.declared.Wanted.TheVariants.{Match};
ghost use Rattle.disk_geometry.specs.Geometry.{lawful, slots, places};
ghost use Rattle.disk_held.specs.Held.{held_words};
ghost use Rattle.disk_volume.specs.Name.{strip};
ghost use Rattle.disk_volume.specs.Directory.{find_from, find_slot};
ghost use Rattle.disk_volume.specs.CodeLent.{IsVolume, VolumeAnd, IsName, IsEntry};
ghost use Rattle.call_answers.specs.Refusal.{is_none, first, first_met};
ghost use Rattle.disk_stores.specs.Stores.{cut};
ghost use Rattle.call_sweep.specs.CodeEdit.{erase_stores};
ghost use Rattle.call_delete.specs.Delete.{delete_tests, free_place, free_entry, free_slot, free_matches};

use call_answers::Refusal;
use call_sweep::Edit;
use disk_geometry::Geometry;
use disk_volume::{Wanted, directory, entry};

// Why the entries that match can't be deleted. A read-only match is sought from the first match on.
fn delete_why(g: Geometry, volume: &[u8], first: usize, user: u8, pattern: &[u8]) -> Refusal
    requires volume_and { VolumeAnd g volume.now (IsName pattern.now) }
    requires first_value { (first ≡ find_slot g volume.now user (strip pattern.now) Match) × (first ≤ slots g) }
    ensures { result ≡ first_met (delete_tests g volume.now user (strip pattern.now)) }
{
    let slots = g.slots();
    let read_only_slot = directory::find_from(
        g,
        volume,
        first,
        user,
        pattern,
        Wanted::ReadOnlyMatch,
    );
    let no_match = call_answers::refuse(Refusal::NoMatch, slots <= first);
    let read_only = call_answers::refuse(Refusal::ReadOnly, read_only_slot < slots);
    call_answers::first_of(no_match, read_only)
}

// The block of place p is no longer held; numbers outside D to T-1 are passed over.
fn free_place(g: Geometry, e: &[u8], held: &mut [u64], p: usize)
    requires g_value { (lawful g ≡ true) × (length held.old ≡ held_words) }
    requires p_bound { (p < places g) × IsEntry e.now }
    ensures { held.new ≡ free_place g e.now held.old p }
{
    let b = entry::block_in(g, e, p);
    if !g.is_inside(b) {
        return;
    }
    disk_held::release(held, b);
}

// The blocks of the entry are no longer held.
fn free_entry(g: Geometry, e: &[u8], held: &mut [u64])
    requires g_value { (lawful g ≡ true) × (length held.old ≡ held_words) }
    requires entry { IsEntry e.now }
    ensures { held.new ≡ free_entry g e.now held.old }
{
    for p in 0..g.places() {
        free_place(g, e, held, p);
    }
}

// The blocks of slot i are no longer held, if its entry matches.
fn free_slot(g: Geometry, volume: &[u8], user: u8, pattern: &[u8], held: &mut [u64], i: usize)
    requires volume { IsVolume g volume.now × (length held.old ≡ held_words) }
    requires i_bound { (i < slots g) × IsName pattern.now }
    ensures { held.new
        ≡ free_slot g volume.now user (strip pattern.now) held.old i }
{
    let at = g.slot_start(i);
    if !entry::has(
        g,
        &volume[at..at + Geometry::ENTRY_BYTES],
        user,
        pattern,
        Wanted::Match,
    ) {
        return;
    }
    free_entry(g, &volume[at..at + Geometry::ENTRY_BYTES], held);
}

// The lowest match from slot `from` on.
fn match_from(g: Geometry, volume: &[u8], from: usize, user: u8, pattern: &[u8]) -> usize
    requires volume { IsVolume g volume.now }
    requires from_bound { (from ≤ slots g) × IsName pattern.now }
    ensures { (result ≡ find_from g volume.now user (strip pattern.now) Match from) × (result ≤ slots g) }
{
    directory::find_from(g, volume, from, user, pattern, Wanted::Match)
}

// The blocks of the entries that match are no longer held, from the first match to the next and so on.
fn free_matches(
    g: Geometry,
    volume: &[u8],
    first: usize,
    user: u8,
    pattern: &[u8],
    held: &mut [u64],
)
    requires volume_and { VolumeAnd g volume.now (IsName pattern.now) }
    requires held_len { length held.old ≡ held_words }
    requires first_value { (first ≡ find_slot g volume.now user (strip pattern.now) Match) × (first ≤ slots g) }
    ensures { held.new
        ≡ free_matches g volume.now user (strip pattern.now) held.old }
{
    let slots = g.slots();
    let mut i = first;
    // No count: from each match it jumps to the next.
    while i < slots {
        free_slot(g, volume, user, pattern, held, i);
        i = match_from(g, volume, i + 1, user, pattern);
    }
}

// Deletes the entries that match, as long as a store is left, and frees their blocks; or refuses, by an earlier refusal
// first, and alters nothing.
pub fn delete_matches(
    g: Geometry,
    volume: &mut [u8],
    user: u8,
    pattern: &[u8],
    held: &mut [u64],
    before: Refusal,
    left: &mut usize,
) -> Refusal
    requires volume_and { VolumeAnd g volume.old (IsName pattern.now) }
    requires held_len { length held.old ≡ held_words }
    ensures value { result
        ≡ first before (first_met (delete_tests g volume.old user (strip pattern.now))) }
    ensures held_after { held.new
        ≡ cond (is_none result)
        (free_matches g volume.old user (strip pattern.now) held.old)
        held.old }
    ensures volume_after { volume.new
        ≡ cond (is_none result)
        (cut g volume.old left.old (erase_stores g user pattern.now volume.old))
        volume.old }
    ensures left_after { left.new
        ≡ cond (is_none result)
        (left.old - length (erase_stores g user pattern.now volume.old))
        left.old }
{
    let first = directory::find(g, volume, user, pattern, Wanted::Match);
    let why = call_answers::first_of(before, delete_why(g, volume, first, user, pattern));
    if !call_answers::is_none(why) {
        return why;
    }
    free_matches(g, volume, first, user, pattern, held);
    call_sweep::change_most(g, volume, first, user, pattern, pattern, Edit::Erase, left);
    why
}
