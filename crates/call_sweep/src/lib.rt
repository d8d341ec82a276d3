// The sweep over the directory, from one entry that is meant to the next: entries are changed in a copy of their record, which
// is stored whole. A record that holds no such entry is not stored.
#![tactic(auto)]

ghost use Rattle.std.specs.Prelude.{◌≡◌, true, [], ◌∷◌, ◌-◌, ◌≤◌, ◌<◌, length};
ghost use Rattle.lists.specs.Bytes.{part};
ghost use Rattle.disk_geometry.specs.Geometry.{lawful, start, slots, record_bytes};
ghost use Rattle.disk_volume.specs.Name.{strip};
ghost use Rattle.disk_volume.specs.Directory.{find_slot, find_from};
ghost use Rattle.disk_volume.specs.CodeLent.{IsVolume, VolumeAnd, IsName, IsEntry, IsRecord};
ghost use Rattle.disk_stores.specs.Pieces.{map_pieces};
ghost use Rattle.disk_stores.specs.Stores.{store, cut, directory_records};
ghost use Rattle.call_sweep.specs.Sweep.{with_top_bit, renamed, attributed};
ghost use Rattle.call_sweep.specs.CodeEdit.{meant, edited, lent_change, edit_stores};

use disk_geometry::Geometry;
use disk_volume::{Wanted, directory, entry, fields, names};

// How entries change in a sweep over the directory.
#[derive(Clone, Copy)]
pub enum Edit {
    Erase,
    Rename,
    Attributes,
}

// Lays the name without its top bits over dst, which is as long.
pub fn lay_name(dst: &mut [u8], name: &[u8])
    requires { length dst.old ≡ length name.now }
    ensures { dst.new ≡ strip name.now }
{
    for (i, x) in name.iter().enumerate() {
        dst[i] = *x % names::TOP_BIT;
    }
}

// A byte with the top bit of another.
fn with_top_bit(x: u8, top: u8) -> u8
    ensures { result ≡ with_top_bit x top }
{
    x % names::TOP_BIT + top / names::TOP_BIT * names::TOP_BIT
}

// Gives the entry the new name; bytes 9 and 10 keep their top bits.
fn rename_entry(e: &mut [u8], new: &[u8])
    requires { IsEntry e.old × IsName new.now }
    ensures { e.new ≡ renamed e.old new.now }
{
    let read_only = with_top_bit(new[fields::NAME_T1], e[fields::T1]);
    let system = with_top_bit(new[fields::NAME_T2], e[fields::T2]);
    lay_name(&mut e[fields::NAME..fields::NAME_END], new);
    e[fields::T1] = read_only;
    e[fields::T2] = system;
}

// Gives the entry's bytes 9 and 10 the top bits of the name's.
fn attribute_entry(e: &mut [u8], new: &[u8])
    requires { IsEntry e.old × IsName new.now }
    ensures { e.new ≡ attributed e.old new.now }
{
    let read_only = with_top_bit(e[fields::T1], new[fields::NAME_T1]);
    let system = with_top_bit(e[fields::T2], new[fields::NAME_T2]);
    e[fields::T1] = read_only;
    e[fields::T2] = system;
}

// Which entries an edit is meant for.
fn meant(edit: Edit) -> Wanted
    ensures { result ≡ meant edit }
{
    match edit {
        Edit::Erase => Wanted::Match,
        Edit::Rename | Edit::Attributes => Wanted::File,
    }
}

// Makes the edit in an entry that it is meant for.
fn edit_entry(e: &mut [u8], new: &[u8], edit: Edit)
    requires { IsEntry e.old × IsName new.now }
    ensures { e.new ≡ edited edit new.now e.old }
{
    match edit {
        Edit::Erase => {
            e[fields::USER] = fields::EMPTY;
        }
        Edit::Rename => rename_entry(e, new),
        Edit::Attributes => attribute_entry(e, new),
    }
}

// Changes the entry if the edit is meant for it.
fn change_one(g: Geometry, e: &mut [u8], user: u8, name: &[u8], new: &[u8], edit: Edit)
    requires g_value { (lawful g ≡ true) × IsEntry e.old }
    requires name { IsName name.now × IsName new.now }
    ensures { e.new ≡ lent_change g edit user name.now new.now e.old }
{
    let wanted = meant(edit);
    if entry::has(g, e, user, name, wanted) {
        edit_entry(e, new, edit);
    }
}

// Changes the four entries of a directory record.
fn change_four(g: Geometry, sector: &mut [u8], user: u8, name: &[u8], new: &[u8], edit: Edit)
    requires g_value { (lawful g ≡ true) × IsRecord sector.old }
    requires name { IsName name.now × IsName new.now }
    ensures { sector.new
        ≡ map_pieces (lent_change g edit user name.now new.now) sector.old }
{
    for k in 0..Geometry::RECORD_SLOTS {
        let at = k * Geometry::ENTRY_BYTES;
        change_one(
            g,
            &mut sector[at..at + Geometry::ENTRY_BYTES],
            user,
            name,
            new,
            edit,
        );
    }
}

// Changes the entries of directory record r, which is stored whole if a store is left.
fn change_record(
    g: Geometry,
    volume: &mut [u8],
    r: usize,
    user: u8,
    name: &[u8],
    new: &[u8],
    edit: Edit,
    left: &mut usize,
)
    requires volume_and { VolumeAnd g volume.old (r < directory_records g) }
    requires name { IsName name.now × IsName new.now }
    ensures volume_after { volume.new
        ≡ cut g volume.old left.old
        (store r
        (map_pieces (lent_change g edit user name.now new.now)
        (part volume.old (start g r) record_bytes))
        ∷ []) }
    ensures left_after { left.new ≡ left.old - 1 }
{
    let at = g.start(r);
    let mut sector = [0u8; Geometry::RECORD_BYTES];
    sector.copy_from_slice(&volume[at..at + Geometry::RECORD_BYTES]);
    change_four(g, &mut sector, user, name, new, edit);
    disk_stores::store_record(g, volume, r, &sector, left);
}

// The lowest slot from `from` on that the edit is meant for. Each edit has a search of its own, so that what is meant is not asked
// again at every slot.
fn next_meant(g: Geometry, volume: &[u8], from: usize, user: u8, name: &[u8], edit: Edit) -> usize
    requires volume { IsVolume g volume.now }
    requires from_bound { (from ≤ slots g) × IsName name.now }
    ensures { (result ≡ find_from g volume.now user (strip name.now) (meant edit) from) × (result ≤ slots g) }
{
    match edit {
        Edit::Erase => directory::find_from(g, volume, from, user, name, Wanted::Match),
        Edit::Rename | Edit::Attributes => {
            directory::find_from(g, volume, from, user, name, Wanted::File)
        }
    }
}

// Makes the edit in every entry of the directory that it is meant for, from the first of them on, as long as a store is
// left.
pub fn change_most(
    g: Geometry,
    volume: &mut [u8],
    first: usize,
    user: u8,
    name: &[u8],
    new: &[u8],
    edit: Edit,
    left: &mut usize,
)
    requires volume { IsVolume g volume.old }
    requires name { IsName name.now × IsName new.now }
    requires first_value { first ≡ find_slot g volume.old user (strip name.now) (meant edit) }
    ensures volume_after { volume.new
        ≡ cut g volume.old left.old
        (edit_stores g edit user name.now new.now volume.old) }
    ensures left_after { left.new
        ≡ left.old
        - length (edit_stores g edit user name.now new.now volume.old) }
{
    let slots = g.slots();
    let mut i = first;
    // No count: from the record of each meant entry it jumps to the next meant entry behind it.
    while i < slots {
        let r = i / Geometry::RECORD_SLOTS;
        change_record(g, volume, r, user, name, new, edit, left);
        i = next_meant(
            g,
            volume,
            Geometry::RECORD_SLOTS * (r + 1),
            user,
            name,
            edit,
        );
    }
}
