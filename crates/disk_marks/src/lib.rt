// "No lower slot has the same user, name and group." A mark for each of these saves nearly every look at the lower slots.
#![tactic(auto)]

ghost use Rattle.std.specs.Prelude.{◌≡◌, true, false, ◌+◌, ◌≤◌, ◌<◌};
ghost use Rattle.disk_geometry.specs.Geometry.{slots};
ghost use Rattle.disk_volume.specs.Name.{strip};
ghost use Rattle.disk_volume.specs.Entry.{is_empty};
ghost use Rattle.disk_volume.specs.Directory.{slot_at};
ghost use Rattle.disk_volume.specs.CodeLent.{IsVolume, IsName, IsEntry};
ghost use Rattle.disk_rules.specs.GoodSlot.{seen_below};
ghost use Rattle.disk_marks.specs.CodeMarks.{MARKS, mark_of, all_marked, Marked, group_below};

use disk_geometry::Geometry;
use disk_volume::{Wanted, directory, entry, fields, names};

// How many marks there are, and words for all of them.
const MARKS: usize = 65536;

pub const WORDS: usize = MARKS / 64;

// The mark of a user, name and group; the factor spreads names that differ in their numbers only.
fn mark_of(user: u8, name: &[u8], k: usize) -> usize
    requires { IsName name.now }
    ensures { (result ≡ mark_of user (strip name.now) k) × (result < MARKS) }
{
    let mut mark = (usize::from(user) + 16 * (k % 1024)) % MARKS;
    for b in name {
        mark = (5003 * mark + usize::from(*b % names::TOP_BIT)) % MARKS;
    }
    mark
}

// Does one of the n lowest slots have group k of this user's file of this name? Looks at them one by one.
fn is_in_lower(g: Geometry, volume: &[u8], n: usize, user: u8, name: &[u8], k: usize) -> bool
    requires volume { IsVolume g volume.now }
    requires n_bound { (n ≤ slots g) × IsName name.now }
    ensures { result ≡ group_below g volume.now n user (strip name.now) k }
{
    for j in 0..n {
        let at = g.slot_start(j);
        if entry::has(
            g,
            &volume[at..at + Geometry::ENTRY_BYTES],
            user,
            name,
            Wanted::Group(k),
        ) {
            return true;
        }
    }
    false
}

// The same; where a slot's place is dear, by a search of the directory.
fn is_below(g: Geometry, volume: &[u8], n: usize, user: u8, name: &[u8], k: usize) -> bool
    requires volume { IsVolume g volume.now }
    requires n_bound { (n ≤ slots g) × IsName name.now }
    ensures { result ≡ group_below g volume.now n user (strip name.now) k }
{
    if g.placing != Geometry::STRAIGHT {
        let lowest = directory::find(g, volume, user, name, Wanted::Group(k));
        return lowest < n;
    }
    is_in_lower(g, volume, n, user, name, k)
}

// Does a lower slot have the user, name and group of the entry e, which stands in slot i? Sets its mark.
pub fn is_seen(g: Geometry, volume: &[u8], i: usize, e: &[u8], marks: &mut [u64]) -> bool
    requires volume { IsVolume g volume.now }
    requires i_bound { (i < slots g) × (IsEntry e.now × (e.now ≡ slot_at g volume.now i)) }
    requires e_value { (is_empty e.now ≡ false) × Marked g volume.now marks.old i }
    ensures value { result ≡ seen_below g volume.now i }
    ensures i_after { all_marked g volume.now marks.new (i + 1) ≡ true }
{
    let k = g.group(entry::extent_of(e));
    let mark = mark_of(e[fields::USER], &e[fields::NAME..fields::NAME_END], k);
    if disk_held::is_held(marks, mark) {
        return is_below(
            g,
            volume,
            i,
            e[fields::USER],
            &e[fields::NAME..fields::NAME_END],
            k,
        );
    }
    disk_held::hold(marks, mark);
    false
}
