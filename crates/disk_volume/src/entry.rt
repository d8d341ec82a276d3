// An entry: its 32 bytes, lent as a part of the volume.
ghost use Rattle.std.specs.Prelude.{◌≡◌, true, false, ◌&&◌, ◌+◌, ◌*◌, ◌≤◌, ◌<◌, eqb, length};
ghost use Rattle.lists.specs.Bytes.{byte};
ghost use Rattle.disk_geometry.specs.Geometry.{entry_bytes, extent_records, lawful, group_of, places, blocks};
ghost use Rattle.disk_volume.specs.Fields.{USER};
ghost use Rattle.disk_volume.specs.Name.{strip};
ghost use Rattle.disk_volume.specs.Entry.{extent, block_in, with_block, count_of, of_file, matches};
ghost use Rattle.disk_volume.specs.Directory.{fits};
ghost use Rattle.disk_volume.specs.CodeLent.{IsEntry, IsName};

pub use crate::fields::EMPTY;
use crate::{Wanted, fields, names};
use disk_geometry::Geometry;

// The extent number of an entry or of a control block.
pub fn extent_of(e: &[u8]) -> usize
    requires { entry_bytes ≤ length e.now }
    ensures { (result ≡ extent e.now) × (result < 8448) }
{
    32 * usize::from(e[fields::S2]) + usize::from(e[fields::EX])
}

// The count of a full extent.
const FULL: u8 = Geometry::EXTENT_RECORDS as u8;

// How many records the entry counts in extent x of its group.
#[tactic(auto, unfolding(crate::specs::Entry::count_of))]
pub fn count_of(e: &[u8], x: usize) -> u8
    requires { IsEntry e.now }
    ensures { (result ≡ count_of e.now x) × (result ≤ extent_records) }
{
    let own = extent_of(e);
    if x < own {
        return FULL;
    }
    if own < x {
        return 0;
    }
    e[fields::RC].min(FULL)
}

// The block number in place p of the entry's map.
#[tactic(auto, using(crate::proofs::MapLaws::block_one, crate::proofs::MapLaws::block_two), unfolding(disk_geometry::specs::Geometry::places))]
pub fn block_in(g: Geometry, e: &[u8], p: usize) -> usize
    requires { (p < places g) × IsEntry e.now }
    ensures { (result ≡ block_in g e.now p) × (result < 65536) }
{
    if g.number_bytes() == 1 {
        return usize::from(e[fields::MAP + p]);
    }
    let at = fields::MAP + p * 2;
    usize::from(u16::from_le_bytes([e[at], e[at + 1]]))
}

// Lays block number b into place p of the entry's map.
#[tactic(auto, using(disk_geometry::proofs::GeometryLaws::bounds, crate::proofs::MapLaws::with_one), unfolding(disk_geometry::specs::Geometry::places))]
pub fn with_block(g: Geometry, e: &mut [u8], p: usize, b: usize)
    requires { (lawful g ≡ true) × ((p < places g) × (IsEntry e.old × (b < blocks g))) }
    ensures { e.new ≡ with_block g e.old p b }
{
    let n = g.number_bytes();
    let at = fields::MAP + p * n;
    if n == 1 {
        e[at] = b as u8;
        return;
    }
    let [low, high] = (b as u16).to_le_bytes();
    e[at] = low;
    e[at + 1] = high;
}

// Is it an entry of this user's file of this name?
#[tactic(auto, unfolding(crate::specs::Entry::of_file, crate::specs::Name::name_at, lists::specs::Bytes::part))]
fn of_file(e: &[u8], user: u8, name: &[u8]) -> bool
    requires { IsEntry e.now × IsName name.now }
    ensures { result ≡ of_file user (strip name.now) e.now }
{
    e[fields::USER] == user && names::same_name(&e[fields::NAME..fields::NAME_END], name)
}

// Is it an entry of this user in group k?
fn in_group(g: Geometry, e: &[u8], user: u8, k: usize) -> bool
    requires { (lawful g ≡ true) × IsEntry e.now }
    ensures { result ≡ (eqb (byte e.now USER) user && eqb (group_of g (extent e.now)) k) }
{
    e[fields::USER] == user && g.group(extent_of(e)) == k
}

// Is it an entry of this user whose name the pattern matches?
#[tactic(auto, unfolding(crate::specs::Entry::matches, crate::specs::Name::name_at, lists::specs::Bytes::part))]
fn is_match(e: &[u8], user: u8, pattern: &[u8]) -> bool
    requires { IsEntry e.now × IsName pattern.now }
    ensures { result ≡ matches user (strip pattern.now) e.now }
{
    e[fields::USER] == user && names::like_name(&e[fields::NAME..fields::NAME_END], pattern)
}

// Does the entry have what is wanted, for this user and this name or pattern? The name is looked at last. Whether it is read-only is asked
// by `if`: by `&&` a search takes nearly twice the instructions for each slot.
#[tactic(auto, unfolding(crate::specs::Entry::of_group, crate::specs::Entry::of_file, crate::specs::Entry::matches, crate::specs::Name::name_at, lists::specs::Bytes::part))]
pub fn has(g: Geometry, e: &[u8], user: u8, name: &[u8], wanted: Wanted) -> bool
    requires { (lawful g ≡ true) × (IsEntry e.now × IsName name.now) }
    ensures { result ≡ fits g user (strip name.now) wanted e.now }
{
    match wanted {
        Wanted::Any => true,
        Wanted::Empty => e[fields::USER] == EMPTY,
        Wanted::File => of_file(e, user, name),
        Wanted::ReadOnlyFile => if names::TOP_BIT <= e[fields::T1] {
            of_file(e, user, name)
        } else {
            false
        },
        Wanted::Group(k) => in_group(g, e, user, k)
            && names::same_name(&e[fields::NAME..fields::NAME_END], name),
        Wanted::Match => is_match(e, user, name),
        Wanted::ReadOnlyMatch => if names::TOP_BIT <= e[fields::T1] {
            is_match(e, user, name)
        } else {
            false
        },
        Wanted::MatchGroup(k) => in_group(g, e, user, k)
            && names::like_name(&e[fields::NAME..fields::NAME_END], name),
    }
}
