// A write decided, by reading alone: its tests in their order, and the slot, the block and the entry that it will store.
#![tactic(auto)]

ghost use Rattle.std.specs.Prelude.{◌≡◌, true, false, ◌≤◌, ◌<◌, eqb, length};
ghost use Rattle.disk_geometry.specs.Geometry.{lawful, slots};
ghost use Rattle.disk_volume.specs.Name.{strip};
ghost use Rattle.disk_volume.specs.Record.{record_block};
ghost use Rattle.disk_volume.specs.CodeLent.{VolumeAnd, IsName, IsEntry};
ghost use Rattle.disk_held.specs.Held.{held_words};
ghost use Rattle.call_answers.specs.Refusal.{is_none, first_met};
ghost use Rattle.call_decide.specs.Write.{write_tests};
ghost use Rattle.call_decide.specs.CodePlan.{Decided, own_or, block_for, file_tests, room_tests};

use call_answers::Refusal;
use disk_geometry::Geometry;
use disk_volume::{Wanted, directory, entry};

// What is decided: why the write is refused, or the slot, the block, and whether the block is newly taken.
#[derive(Clone, Copy)]
pub struct WritePlan {
    pub why: Refusal,
    pub slot: usize,
    pub block: usize,
    pub fresh: bool,
}

// The slot of the group's own entry, or else the lowest that has what is wanted.
fn own_or(g: Geometry, volume: &[u8], user: u8, name: &[u8], own: usize, wanted: Wanted) -> usize
    requires { VolumeAnd g volume.now (IsName name.now) }
    ensures { (result ≡ own_or g volume.now user (strip name.now) own wanted)
        × (result ≤ slots g) }
{
    if own < g.slots() {
        return own;
    }
    directory::find(g, volume, user, name, wanted)
}

// 3 and 38, where the file's entry is sought in slot `from`.
fn file_why(g: Geometry, volume: &[u8], user: u8, name: &[u8], from: usize) -> Refusal
    requires { VolumeAnd g volume.now (IsName name.now) }
    ensures { result ≡ first_met (file_tests g volume.now user (strip name.now) from) }
{
    let slots = g.slots();
    if slots <= from {
        return Refusal::NoFile;
    }
    let read_only_slot = directory::find(g, volume, user, name, Wanted::ReadOnlyFile);
    call_answers::refuse(Refusal::ReadOnly, read_only_slot < slots)
}

// 41, 5 and 2, for record n of entry e in this slot, with its block.
fn room(g: Geometry, held: &[u64], e: &[u8], slot: usize, n: usize) -> WritePlan
    requires { (lawful g ≡ true) × (IsEntry e.now × (length held.now ≡ held_words)) }
    ensures why_value { result.why ≡ first_met (room_tests g held.now e.now slot n) }
    ensures slot_value { result.slot ≡ slot }
    ensures block_value { result.block ≡ block_for g held.now e.now n }
    ensures fresh_value { result.fresh ≡ eqb (record_block g e.now n) 0 }
{
    let place = g.place(n);
    let no_slot = call_answers::refuse(Refusal::NoSlot, g.slots() <= slot);
    let own = entry::block_in(g, e, place);
    if own != 0 {
        let outside = call_answers::refuse(Refusal::Outside, !g.is_inside(own));
        let why = call_answers::first_of(outside, no_slot);
        return WritePlan {
            why,
            slot,
            block: own,
            fresh: false,
        };
    }
    let block = call_entry::alloc(g, held, e, place);
    let no_block = call_answers::refuse(Refusal::NoBlock, g.blocks <= block);
    let why = call_answers::first_of(no_slot, no_block);
    WritePlan {
        why,
        slot,
        block,
        fresh: true,
    }
}

// All tests in their order; where none is met, e becomes the entry that is to grow.
pub fn decide(
    g: Geometry,
    volume: &[u8],
    user: u8,
    name: &[u8],
    held: &[u64],
    n: usize,
    e: &mut [u8],
) -> WritePlan
    requires volume_and { VolumeAnd g volume.now (IsName name.now) }
    requires entry { IsEntry e.old × (length held.now ≡ held_words) }
    ensures why_value { result.why
        ≡ first_met (write_tests g held.now volume.now user (strip name.now) n) }
    ensures decided { is_none result.why ≡ true
        → Decided g held.now volume.now user (strip name.now) n
        result.slot result.block result.fresh e.new }
{
    let group = g.group(n / Geometry::EXTENT_RECORDS);
    let own = directory::find(g, volume, user, name, Wanted::Group(group));
    let from = own_or(g, volume, user, name, own, Wanted::File);
    let why = file_why(g, volume, user, name, from);
    if !call_answers::is_none(why) {
        return WritePlan {
            why,
            slot: 0,
            block: 0,
            fresh: false,
        };
    }
    call_entry::base_entry(g, volume, own, from, e);
    let slot = own_or(g, volume, user, name, own, Wanted::Empty);
    room(g, held, e, slot, n)
}
