// What a volume holds: files, entries, records present, blocks held and free, waste.
#![tactic(auto)]

ghost use Rattle.std.specs.Prelude.{◌≡◌, true, cond, ◌+◌, ◌-◌, ◌*◌, ◌≤◌, ◌<◌};
ghost use Rattle.disk_geometry.specs.Geometry.{lawful, slots, records, places};
ghost use Rattle.disk_volume.specs.CodeLent.{IsVolume, IsEntry};
ghost use Rattle.disk_rules.specs.GoodSlot.{lowest_bad};
ghost use Rattle.disk_rules.specs.Named.{free_of};
ghost use Rattle.shelf_files.specs.CodeTree.{HoldsFirst};
ghost use Rattle.shelf_holdings.specs.Holdings.{is_entry, entries, is_file, files, holdings};
ghost use Rattle.shelf_holdings.specs.CodeEntries.{run, place_records, entry_records, slot_records, records_by_entries};

use disk_geometry::Geometry;
use disk_volume::{entry, fields};
use shelf_files::Tree;

// The figures of one volume.
#[derive(Clone, Copy)]
pub struct Holdings {
    pub files: usize,
    pub entries: usize,
    pub records: usize,
    pub held: usize,
    pub free: usize,
    pub waste: usize,
}

// What the slots passed so far have.
#[derive(Clone, Copy)]
struct Counts {
    files: usize,
    entries: usize,
    records: usize,
}

// How many records of its group the entry counts, from the group's first on.
fn run_of(g: Geometry, e: &[u8]) -> usize
    requires { (lawful g ≡ true) × IsEntry e.now }
    ensures { (result ≡ run g e.now) × (result ≤ 512) }
{
    let x = entry::extent_of(e);
    Geometry::EXTENT_RECORDS * (x % g.extents()) + usize::from(entry::count_of(e, x))
}

// How many records of place p are present, where so many of the run are left for this place and the higher ones.
fn place_records(g: Geometry, e: &[u8], p: usize, left: usize) -> usize
    requires g_value { (lawful g ≡ true) × ((p < places g) × IsEntry e.now) }
    requires left_value { left ≡ run g e.now - p * records g }
    ensures { (result ≡ place_records g e.now p) × (result ≤ 32) }
{
    if entry::block_in(g, e, p) == 0 {
        return 0;
    }
    left.min(g.records())
}

// How many records of the entry are present.
fn entry_records(g: Geometry, e: &[u8]) -> usize
    requires { (lawful g ≡ true) × IsEntry e.now }
    ensures { (result ≡ entry_records g e.now) × (result ≤ 512) }
{
    let mut left = run_of(g, e);
    let mut m = 0;
    for p in 0..g.places() {
        m += place_records(g, e, p, left);
        left = left.saturating_sub(g.records());
    }
    m
}

// The counts with what slot i has.
fn add_slot(g: Geometry, volume: &[u8], i: usize, c: Counts, tree: &mut Tree) -> Counts
    requires volume { IsVolume g volume.now }
    requires i_bound { (i < slots g) × ((c.files ≤ i) × ((c.entries ≤ i) × (c.records ≤ 512 * i))) }
    requires tree { HoldsFirst g volume.now tree.old i }
    ensures files_value { result.files ≡ c.files + cond (is_file g volume.now i) 1 0 }
    ensures entries_value { result.entries ≡ c.entries + cond (is_entry g volume.now i) 1 0 }
    ensures records_value { result.records ≡ c.records + slot_records g volume.now i }
    ensures files_bound { (result.files ≤ i + 1) × ((result.entries ≤ i + 1) × (result.records ≤ 512 * (i + 1))) }
    ensures tree_after { HoldsFirst g volume.now tree.new (i + 1) }
{
    let at = g.slot_start(i);
    if volume[at] == fields::EMPTY {
        return c;
    }
    let e = &volume[at..at + Geometry::ENTRY_BYTES];
    let first = tree.is_first(g, volume, i, e);
    let files = c.files + usize::from(first);
    let entries = c.entries + 1;
    let records = c.records + entry_records(g, e);
    Counts {
        files,
        entries,
        records,
    }
}

// Files, entries and records, in one pass over the directory.
fn count(g: Geometry, volume: &[u8]) -> Counts
    requires { IsVolume g volume.now }
    ensures files_value { result.files ≡ files g volume.now }
    ensures entries_value { result.entries ≡ entries g volume.now }
    ensures records_value { result.records ≡ records_by_entries g volume.now }
{
    let mut tree = Tree::new();
    let mut c = Counts {
        files: 0,
        entries: 0,
        records: 0,
    };
    for i in 0..g.slots() {
        c = add_slot(g, volume, i, c, &mut tree);
    }
    c
}

// What the volume holds, which passes inspection and has so many free blocks.
pub fn take_stock(g: Geometry, volume: &[u8], free: usize) -> Holdings
    requires volume { IsVolume g volume.now }
    requires volume_value { (lowest_bad g volume.now ≡ slots g) × (free ≡ free_of g volume.now) }
    ensures { result ≡ holdings g volume.now }
{
    let c = count(g, volume);
    let held = g.blocks - g.directory_blocks - free;
    let room = held * g.records();
    let waste = room - c.records;
    Holdings {
        files: c.files,
        entries: c.entries,
        records: c.records,
        held,
        free,
        waste,
    }
}
