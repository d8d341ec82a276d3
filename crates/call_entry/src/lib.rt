// The entry that a write leaves: what it begins from, how it counts a further record, and the block of its place.
#![tactic(auto)]

ghost use Rattle.std.specs.Prelude.{◌≡◌, true, ◌+◌, ◌≤◌, ◌<◌, length};
ghost use Rattle.disk_geometry.specs.Geometry.{lawful, slots, places, blocks};
ghost use Rattle.disk_held.specs.Held.{held_words};
ghost use Rattle.disk_volume.specs.CodeLent.{IsVolume, IsEntry};
ghost use Rattle.call_fcb.specs.Fcb.{file_records};
ghost use Rattle.call_entry.specs.Alloc.{nearest_below, alloc};
ghost use Rattle.call_entry.specs.Grown.{base_of, grown, written_entry};

use disk_geometry::Geometry;
use disk_volume::{entry, fields};

// Copies the entry of slot `from` to e; where it is not the group's own, only its user and name.
pub fn base_entry(g: Geometry, volume: &[u8], own: usize, from: usize, e: &mut [u8])
    requires volume { IsVolume g volume.now }
    requires from_bound { (from < slots g) × IsEntry e.old }
    ensures { e.new ≡ base_of g volume.now own from }
{
    let at = g.slot_start(from);
    e.copy_from_slice(&volume[at..at + Geometry::ENTRY_BYTES]);
    if g.slots() <= own {
        e[fields::EX..Geometry::ENTRY_BYTES].fill(0);
    }
}

// Lets the entry count record n of its group.
pub fn grow(e: &mut [u8], n: usize)
    requires { IsEntry e.old × (n < file_records) }
    ensures { e.new ≡ grown e.old n }
{
    let own = entry::extent_of(e);
    let x = n / Geometry::EXTENT_RECORDS;
    let count = (n % Geometry::EXTENT_RECORDS + 1) as u8;
    if own < x {
        e[fields::EX] = (x % 32) as u8;
        e[fields::S2] = (x / 32) as u8;
        e[fields::RC] = count;
        return;
    }
    if (own == x) & (e[fields::RC] < count) {
        e[fields::RC] = count;
    }
}

// Lets the entry say that record n went to block b.
pub fn write_entry(g: Geometry, e: &mut [u8], n: usize, b: usize)
    requires { (lawful g ≡ true) × (IsEntry e.old × ((n < file_records) × (b < blocks g))) }
    ensures { e.new ≡ written_entry g e.old n b }
{
    grow(e, n);
    let p = g.place(n);
    entry::with_block(g, e, p, b);
}

// The block in the nearest used place below place p of the entry, 0 where none is used.
fn nearest_below(g: Geometry, e: &[u8], p: usize) -> usize
    requires { (p < places g) × IsEntry e.now }
    ensures { result ≡ nearest_below g e.now p }
{
    for q in (0..p).rev() {
        let b = entry::block_in(g, e, q);
        if b != 0 {
            return b;
        }
    }
    0
}

// The block that place p of the entry is given, T where none is free; nothing else knows the rule.
pub fn alloc(g: Geometry, held: &[u64], e: &[u8], p: usize) -> usize
    requires g_value { (lawful g ≡ true) × ((p < places g) × IsEntry e.now) }
    requires held_len { length held.now ≡ held_words }
    ensures { (result ≡ alloc g held.now e.now p) × (result ≤ blocks g) }
{
    let near = nearest_below(g, e, p);
    if g.is_inside(near) {
        let above = disk_held::lowest_free(held, near + 1, g.blocks);
        if above < g.blocks {
            return above;
        }
    }
    disk_held::lowest_free(held, g.directory_blocks, g.blocks)
}
