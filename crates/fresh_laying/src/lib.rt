// A fresh disk laid out: the entries in order, each with its blocks moved, then blank slots and blank blocks.
#![tactic(auto)]

ghost use Rattle.std.specs.Prelude.{◌≡◌, true, cond, ◌+◌, ◌-◌, ◌≤◌, ◌<◌, length, map};
ghost use Rattle.lists.specs.Bounded.{fold};
ghost use Rattle.disk_geometry.specs.Geometry.{bytes, slots, blocks, places};
ghost use Rattle.disk_volume.specs.Entry.{block_in, with_block};
ghost use Rattle.disk_volume.specs.Directory.{slot_at, put_slot};
ghost use Rattle.disk_volume.specs.Record.{record_at, put_record};
ghost use Rattle.disk_volume.specs.CodeLent.{IsVolume, VolumeAnd, IsEntry, IsRecord};
ghost use Rattle.files.specs.Files.{is_used};
ghost use Rattle.fresh_order.specs.Order.{order};
ghost use Rattle.fresh_order.specs.CodeKeys.{key_of};
ghost use Rattle.fresh_sorting.specs.CodeKept.{IsAccepted};
ghost use Rattle.fresh_volume.specs.Copy.{blocks_below, number_place, numbered, first_number, put_block, fresh};
ghost use Rattle.fresh_laying.specs.CodeLaying.{move_blocks, lay_entry, blank_slot, blank_block, MapFits};

use disk_geometry::Geometry;
use disk_volume::{entry, fields};
use fresh_sorting::MOST_SLOTS;

// Lays record n of block b.
fn lay_record(g: Geometry, second: &mut [u8], b: usize, n: usize, sector: &[u8])
    requires volume { IsVolume g second.old }
    requires b_bound { (b < blocks g) × IsRecord sector.now }
    ensures { second.new ≡ put_record g second.old b n sector.now }
{
    let at = g.record_start(b, n);
    second[at..at + Geometry::RECORD_BYTES].copy_from_slice(sector);
}

// Lays the entry of slot k.
fn lay_slot(g: Geometry, second: &mut [u8], k: usize, e: &[u8])
    requires volume { IsVolume g second.old }
    requires k_bound { (k < slots g) × IsEntry e.now }
    ensures { second.new ≡ put_slot g second.old k e.now }
{
    let at = g.slot_start(k);
    second[at..at + Geometry::ENTRY_BYTES].copy_from_slice(e);
}

// Copies block b of the first disk to block c of the second.
fn copy_block(g: Geometry, first: &[u8], b: usize, second: &mut [u8], c: usize)
    requires volume_and { VolumeAnd g first.now (length second.old ≡ bytes g) }
    requires b_bound { (b < blocks g) × (c < blocks g) }
    ensures { second.new ≡ put_block g second.old c (record_at g first.now b) }
{
    let from = g.record_of(b, 0);
    let to = g.record_of(c, 0);
    for k in 0..g.records() {
        let old = g.start(from + k);
        let new = g.start(to + k);
        second[new..new + Geometry::RECORD_BYTES].copy_from_slice(
            &first[old..old + Geometry::RECORD_BYTES],
        );
    }
}

// Lays E5H everywhere in block b.
fn blank_block(g: Geometry, second: &mut [u8], b: usize)
    requires volume { IsVolume g second.old }
    requires b_bound { b < blocks g }
    ensures { second.new ≡ blank_block g second.old b }
{
    let blank = [fields::EMPTY; Geometry::RECORD_BYTES];
    for k in 0..g.records() {
        lay_record(g, second, b, k, &blank);
    }
}

// Moves the block of place p of the entry e, if there is one, and lays its new number into the same place of `new`; the next number.
fn move_place(
    g: Geometry,
    first: &[u8],
    e: &[u8],
    p: usize,
    second: &mut [u8],
    new: &mut [u8],
    next: usize,
) -> usize
    requires volume_and { VolumeAnd g first.now (length second.old ≡ bytes g) }
    requires p_bound { (p < places g) × (IsEntry e.now × IsEntry new.old) }
    requires p_bound_2 { is_used g e.now p ≡ true → (block_in g e.now p < blocks g) × (next < blocks g) }
    ensures value { result ≡ cond (is_used g e.now p) (next + 1) next }
    ensures second_after { second.new
        ≡ cond (is_used g e.now p)
        (put_block g second.old next (record_at g first.now (block_in g e.now p)))
        second.old }
    ensures after { new.new ≡ cond (is_used g e.now p) (with_block g new.old p next) new.old }
{
    let b = entry::block_in(g, e, p);
    if b == 0 {
        return next;
    }
    copy_block(g, first, b, second, next);
    entry::with_block(g, new, p, next);
    next + 1
}

// Moves all blocks of the entry e, numbered from b on, and lays their numbers into `new`; the next number.
fn move_blocks(
    g: Geometry,
    first: &[u8],
    e: &[u8],
    second: &mut [u8],
    new: &mut [u8],
    b: usize,
) -> usize
    requires volume_and { VolumeAnd g first.now (length second.old ≡ bytes g) }
    requires entry { IsEntry e.now × (IsEntry new.old × MapFits g e.now b) }
    ensures value { result ≡ b + length (blocks_below g e.now (places g)) }
    ensures second_after { second.new ≡ move_blocks g first.now e.now b second.old }
    ensures after { new.new ≡ fold (number_place g b e.now) new.old 0 (places g) }
{
    let mut next = b;
    for p in 0..g.places() {
        next = move_place(g, first, e, p, second, new, next);
    }
    next
}

// Lays the entry of slot i of the first disk into slot k of the second, its blocks numbered from b on; the next number.
fn lay_entry(g: Geometry, first: &[u8], i: usize, second: &mut [u8], k: usize, b: usize) -> usize
    requires volume_and { VolumeAnd g first.now (length second.old ≡ bytes g) }
    requires i_bound { (i < slots g) × ((k < slots g) × MapFits g (slot_at g first.now i) b) }
    ensures value { result ≡ b + length (blocks_below g (slot_at g first.now i) (places g)) }
    ensures second_after { second.new
        ≡ put_slot g (move_blocks g first.now (slot_at g first.now i) b second.old) k
        (numbered g b (slot_at g first.now i)) }
{
    let at = g.slot_start(i);
    let mut new = [0u8; Geometry::ENTRY_BYTES];
    new[..fields::MAP].copy_from_slice(&first[at..at + fields::MAP]);
    let next = move_blocks(
        g,
        first,
        &first[at..at + Geometry::ENTRY_BYTES],
        second,
        &mut new,
        b,
    );
    lay_slot(g, second, k, &new);
    next
}

// Lays the entries whose numbers are kept, in order; the next number of a block.
fn lay_entries(g: Geometry, first: &[u8], kept: &[usize], second: &mut [u8]) -> usize
    requires accepted { IsAccepted g first.now × (length second.old ≡ bytes g) }
    requires in_order { kept.now ≡ map (key_of g first.now) (order g first.now) }
    ensures value { result ≡ first_number g first.now (order g first.now) (length kept.now) }
    ensures second_after { second.new
        ≡ fold (lay_entry g first.now (order g first.now)) second.old 0 (length kept.now) }
{
    let mut next = g.directory_blocks;
    for (k, key) in kept.iter().enumerate() {
        next = lay_entry(g, first, *key % MOST_SLOTS, second, k, next);
    }
    next
}

// Lays E5H everywhere in the slots from k on.
fn blank_slots(g: Geometry, second: &mut [u8], k: usize)
    requires volume { IsVolume g second.old }
    requires k_bound { k ≤ slots g }
    ensures { second.new ≡ fold (blank_slot g) second.old k (slots g - k) }
{
    let blank = [fields::EMPTY; Geometry::ENTRY_BYTES];
    for i in k..g.slots() {
        lay_slot(g, second, i, &blank);
    }
}

// Lays E5H everywhere in the blocks from b on.
fn blank_blocks(g: Geometry, second: &mut [u8], b: usize)
    requires volume { IsVolume g second.old }
    requires b_bound { b ≤ blocks g }
    ensures { second.new ≡ fold (blank_block g) second.old b (blocks g - b) }
{
    for i in b..g.blocks {
        blank_block(g, second, i);
    }
}

// Lays the fresh disk of the first onto the second.
pub fn lay_out(g: Geometry, first: &[u8], second: &mut [u8])
    requires accepted { IsAccepted g first.now }
    requires second_len { length second.old ≡ bytes g }
    ensures { second.new ≡ fresh g first.now second.old }
{
    let mut kept = [0usize; MOST_SLOTS];
    let m = fresh_sorting::order_of(g, first, &mut kept);
    let next = lay_entries(g, first, &kept[..m], second);
    blank_slots(g, second, m);
    blank_blocks(g, second, next);
}
