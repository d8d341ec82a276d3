// Is an entry the first of its file? The first entries of files are in a tree by the keys of their users and names, so that few
// lower slots are looked at.
#![tactic(auto)]

ghost use Rattle.std.specs.Prelude.{◌≡◌, true, false, MatchOption, ◌+◌, ◌-◌, ◌/◌, ◌≤◌, ◌<◌, eqb, length};
ghost use Rattle.lists.specs.Bounded.{any};
ghost use Rattle.lists.specs.Bytes.{byte};
ghost use Rattle.disk_geometry.specs.Geometry.{slots};
ghost use Rattle.disk_volume.specs.Fields.{EMPTY};
ghost use Rattle.disk_volume.specs.Name.{strip};
ghost use Rattle.disk_volume.specs.Entry.{is_empty, of_file};
ghost use Rattle.disk_volume.specs.Directory.{slot_at};
ghost use Rattle.disk_volume.specs.CodeLent.{IsVolume, IsName, IsEntry};
ghost use Rattle.files.specs.Files.{is_listed};
ghost use Rattle.shelf_files.specs.CodeTree.{CHAINS, most_slots, KEYS, KEYED, NEXT, WORDS, key_of, entry_key, way, next_in, with_next, linked, HoldsFirst, HoldsNone, Ended};

use disk_geometry::Geometry;
use disk_volume::{Wanted, entry, fields, names};

// How many chains there are, slots of the largest directory, and keys.
const CHAINS: usize = 256;

const SLOTS: usize = 2048;

const KEYS: usize = 1 << 40;

// It spreads the keys of names that differ in their numbers only.
const FACTOR: usize = 13964171;

// From this bit on a way goes by the bits of a key.
const MIXED: usize = 1 << 16;

// The word of a slot on a way: two slots to go on at, of which each has a number below NEXT, and from KEYED on the top 8 bits of the
// key. So many words there are.
const NEXT: usize = 4096;

const KEYED: usize = NEXT * NEXT;

const WORDS: usize = 1 << 32;

// Where the way of a file that was not seen ends: at `last`, 1 and the slot, where it would go on by `bit`.
#[derive(Clone, Copy)]
struct End {
    last: usize,
    bit: usize,
}

// The key of a user and a name.
fn key_of(user: u8, name: &[u8]) -> usize
    requires { IsName name.now }
    ensures { (result ≡ key_of user (strip name.now)) × (result < KEYS) }
{
    let mut key = usize::from(user);
    for b in name {
        key = (FACTOR * key + usize::from(*b % names::TOP_BIT)) % KEYS;
    }
    key
}

// Where a way goes on from a slot with this word.
fn next_in(node: usize, bit: usize) -> usize
    ensures { result ≡ next_in bit node }
{
    if bit == 0 {
        return node % NEXT;
    }
    node / NEXT % NEXT
}

// The word with a slot to go on at, where there was none.
fn with_next(node: usize, bit: usize, s: usize) -> usize
    requires { (node < WORDS) × ((s < NEXT) × (next_in bit node ≡ 0)) }
    ensures { (result ≡ with_next bit s node) × (result < WORDS) }
{
    if bit == 0 {
        return node + s;
    }
    node + s * NEXT
}

// Has slot j, whose word this is, an entry of this user's file of this name, which has this key?
fn is_here(
    g: Geometry,
    volume: &[u8],
    j: usize,
    node: usize,
    user: u8,
    name: &[u8],
    key: usize,
) -> bool
    requires volume { IsVolume g volume.now }
    requires j_bound { (j < slots g) × (node / KEYED ≡ entry_key (slot_at g volume.now j) / WORDS) }
    requires name { IsName name.now × (key ≡ key_of user (strip name.now)) }
    ensures { result ≡ of_file user (strip name.now) (slot_at g volume.now j) }
{
    if node / KEYED != key / WORDS {
        return false;
    }
    let at = g.slot_start(j);
    entry::has(
        g,
        &volume[at..at + Geometry::ENTRY_BYTES],
        user,
        name,
        Wanted::File,
    )
}

// The files of the slots passed so far: where the ways of each chain begin, and the words of the slots.
#[derive(Drop)]
pub struct Tree {
    heads: [u16; CHAINS],
    nodes: [u32; SLOTS],
}

impl Tree {
    // No file.
    pub fn new() -> Tree
        ensures { HoldsNone result }
    {
        Tree {
            heads: [0; CHAINS],
            nodes: [0; SLOTS],
        }
    }

    // Looks for an entry of this user's file of this name in the i lowest slots, along the way of its key. Nothing, where it is seen;
    // else where the way ends.
    fn follow(
        &self,
        g: Geometry,
        volume: &[u8],
        i: usize,
        user: u8,
        name: &[u8],
        key: usize,
    ) -> Option<End>
        requires volume { IsVolume g volume.now }
        requires i_bound { (i < slots g) × (IsName name.now × (eqb user EMPTY ≡ false)) }
        requires key_value { key ≡ key_of user (strip name.now) }
        requires tree { HoldsFirst g volume.now self.now i }
        ensures { MatchOption result
            (any i (λ j. of_file user (strip name.now) (slot_at g volume.now j)) ≡ true)
            (λ end. (any i (λ j. of_file user (strip name.now) (slot_at g volume.now j)) ≡ false)
            × Ended g volume.now i key end.last end.bit) }
    {
        // A `while`, since it walks a chain of slots.
        let mut s = usize::from(self.heads[key % CHAINS]);
        let mut rest = key / MIXED;
        let mut last = 0;
        let mut bit = 0;
        while 0 < s {
            let node = self.nodes[s - 1] as usize;
            if is_here(g, volume, s - 1, node, user, name, key) {
                return None;
            }
            last = s;
            bit = rest % 2;
            rest = rest / 2;
            s = next_in(node, bit);
        }
        Some(End { last, bit })
    }

    // Slot i is where a way goes on that ended: at no slot of its chain, or at `last` by `bit`.
    fn link(&mut self, i: usize, key: usize, last: usize, bit: usize)
        requires { (i < most_slots) × ((last ≤ i) × (0 < last → next_in bit (byte self.old.nodes (last - 1)) ≡ 0)) }
        ensures { self.new ≡ linked self.old key last bit i }
    {
        if last == 0 {
            self.heads[key % CHAINS] = (i + 1) as u16;
            return;
        }
        let node = self.nodes[last - 1] as usize;
        self.nodes[last - 1] = with_next(node, bit, i + 1) as u32;
    }

    // Is the entry e, which stands in slot i, the first of its file? Then it is put where the way of its key ended.
    pub fn is_first(&mut self, g: Geometry, volume: &[u8], i: usize, e: &[u8]) -> bool
        requires volume { IsVolume g volume.now }
        requires i_bound { (i < slots g) × (IsEntry e.now × (e.now ≡ slot_at g volume.now i)) }
        requires e_value { is_empty e.now ≡ false }
        requires tree { HoldsFirst g volume.now self.old i }
        ensures value { result ≡ is_listed g volume.now e.now i }
        ensures tree { HoldsFirst g volume.now self.new (i + 1) }
    {
        let user = e[fields::USER];
        let name = &e[fields::NAME..fields::NAME_END];
        let key = key_of(user, name);
        let Some(end) = self.follow(g, volume, i, user, name, key) else {
            return false;
        };
        self.link(i, key, end.last, end.bit);
        self.nodes[i] = (key / WORDS * KEYED) as u32;
        true
    }
}
