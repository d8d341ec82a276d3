// Inspection at log-in: the lowest bad slot, and the blocks that entries name.
#![tactic(auto)]

ghost use Rattle.std.specs.Prelude.{◌≡◌, true, ◌+◌, ◌≤◌, ◌<◌};
ghost use Rattle.disk_geometry.specs.Geometry.{slots};
ghost use Rattle.disk_volume.specs.CodeLent.{IsVolume};
ghost use Rattle.disk_held.specs.Held.{words_of, none_held};
ghost use Rattle.disk_rules.specs.GoodSlot.{good_slot, lowest_bad};
ghost use Rattle.disk_rules.specs.Named.{held_of, free_of};
ghost use Rattle.disk_maps.specs.CodeHeldBelow.{held_below};
ghost use Rattle.disk_marks.specs.CodeMarks.{all_marked, Marked};

use disk_geometry::Geometry;
use disk_volume::fields;

// The lowest bad slot, the number of slots where none is bad, and then the number of free blocks.
#[derive(Clone, Copy)]
pub struct Inspected {
    pub slot: usize,
    pub free: usize,
}

// Is slot i good? Then its blocks are held beside those of the lower slots, and its mark is set.
fn take_slot(g: Geometry, volume: &[u8], i: usize, held: &mut [u64], marks: &mut [u64]) -> bool
    requires volume { IsVolume g volume.now }
    requires i_bound { (i < slots g) × (held.old ≡ words_of (held_below g volume.now i)) }
    requires marked { Marked g volume.now marks.old i }
    ensures value { result ≡ good_slot g volume.now i }
    ensures held_after { result ≡ true → held.new ≡ words_of (held_below g volume.now (i + 1)) }
    ensures i_after { result ≡ true → all_marked g volume.now marks.new (i + 1) ≡ true }
{
    let at = g.slot_start(i);
    if volume[at] == fields::EMPTY {
        return true;
    }
    if !disk_rules::good_entry(&volume[at..at + Geometry::ENTRY_BYTES]) {
        return false;
    }
    if !disk_maps::take_map(g, volume, i, held) {
        return false;
    }
    !disk_marks::is_seen(g, volume, i, &volume[at..at + Geometry::ENTRY_BYTES], marks)
}

// The lowest bad slot; where none is bad, the words hold the blocks that the entries name. A function of its own in the machine's code too,
// so that the loop's slot stays in a register.
#[inline(never)]
fn look(g: Geometry, volume: &[u8], held: &mut [u64]) -> usize
    requires volume { IsVolume g volume.now }
    requires held_value { held.old ≡ none_held }
    ensures value { (result ≡ lowest_bad g volume.now) × (result ≤ slots g) }
    ensures held_after { result ≡ slots g → held.new ≡ held_of g volume.now }
{
    let n = g.slots();
    let mut marks = [0u64; disk_marks::WORDS];
    for i in 0..n {
        if !take_slot(g, volume, i, held, &mut marks) {
            return i;
        }
    }
    n
}

// The lowest bad slot; where none is bad, the words hold the blocks that the entries name, and the others are counted.
pub fn inspect(g: Geometry, volume: &[u8], held: &mut [u64]) -> Inspected
    requires volume { IsVolume g volume.now }
    requires held_value { held.old ≡ none_held }
    ensures slot_value { (result.slot ≡ lowest_bad g volume.now) × (result.slot ≤ slots g) }
    ensures held_after { result.slot ≡ slots g
        → (held.new ≡ held_of g volume.now) × (result.free ≡ free_of g volume.now) }
{
    let slot = look(g, volume, held);
    let free = disk_held::free_count(held, g.directory_blocks, g.blocks);
    Inspected { slot, free }
}
