// Rename and attributes: the tests of the new name and of the directory, and the changes in the file's entries.
ghost use Rattle.std.specs.Prelude.{◌≡◌, cond, ◌-◌, ◌≤◌, length};
ghost use Rattle.disk_geometry.specs.Geometry.{slots};
ghost use Rattle.disk_volume.specs.declared.Wanted.TheVariants.{File};
ghost use Rattle.disk_volume.specs.Name.{strip};
ghost use Rattle.disk_volume.specs.Directory.{find_slot};
ghost use Rattle.disk_volume.specs.CodeLent.{IsVolume, VolumeAnd, IsName, IsFcb};
ghost use Rattle.disk_stores.specs.Stores.{cut};
ghost use Rattle.call_answers.specs.Refusal.{is_none, first, first_met};
ghost use Rattle.call_sweep.specs.declared.Edit.TheVariants.{Rename, Attributes};
ghost use Rattle.call_sweep.specs.CodeEdit.{edit_stores};
ghost use Rattle.call_rename.specs.Rename.{rename_tests, attribute_tests};
ghost use Rattle.call_rename.specs.CodeNewName.{new_name_tests};

use call_answers::Refusal;
use call_sweep::Edit;
use disk_geometry::Geometry;
use disk_volume::{Wanted, directory, names};

// Why the control block's new name can't be a file's, whatever the directory holds: 39, then 45.
pub fn new_name_why(fcb: &[u8]) -> Refusal
    requires { IsFcb fcb.now }
    ensures { result ≡ first_met (new_name_tests fcb.now) }
{
    let bad = call_answers::refuse(
        Refusal::Name,
        !names::good_name(false, &fcb[call_fcb::NEW_NAME..call_fcb::NEW_NAME_END]),
    );
    let untypeable = call_answers::refuse(
        Refusal::Untypeable,
        !call_typing::typeable_name(&fcb[call_fcb::NEW_NAME..call_fcb::NEW_NAME_END]),
    );
    call_answers::first_of(bad, untypeable)
}

// Why the file, whose first entry is given, can't be renamed. A read-only entry is sought from there on.
fn rename_why(
    g: Geometry,
    volume: &[u8],
    first: usize,
    user: u8,
    name: &[u8],
    new: &[u8],
) -> Refusal
    requires volume { IsVolume g volume.now }
    requires name { IsName name.now × IsName new.now }
    requires first_value { (first ≡ find_slot g volume.now user (strip name.now) File) × (first ≤ slots g) }
    ensures { result
        ≡ first_met (rename_tests g volume.now user (strip name.now) (strip new.now)) }
{
    let slots = g.slots();
    let read_only_slot = directory::find_from(g, volume, first, user, name, Wanted::ReadOnlyFile);
    let taken = directory::find(g, volume, user, new, Wanted::File);
    let no_match = call_answers::refuse(Refusal::NoMatch, slots <= first);
    let read_only = call_answers::refuse(Refusal::ReadOnly, read_only_slot < slots);
    let exists = call_answers::refuse(Refusal::Exists, taken < slots);
    call_answers::first_of(no_match, call_answers::first_of(read_only, exists))
}

// Gives all entries of the file the new name, as long as a store is left; or refuses, by an earlier refusal first, and
// alters nothing.
pub fn rename_file(
    g: Geometry,
    volume: &mut [u8],
    user: u8,
    name: &[u8],
    new: &[u8],
    before: Refusal,
    left: &mut usize,
) -> Refusal
    requires volume { IsVolume g volume.old }
    requires name { IsName name.now × IsName new.now }
    ensures value { result
        ≡ first before
        (first_met (rename_tests g volume.old user (strip name.now) (strip new.now))) }
    ensures volume_after { volume.new
        ≡ cond (is_none result)
        (cut g volume.old left.old
        (edit_stores g Rename user name.now new.now volume.old))
        volume.old }
    ensures left_after { left.new
        ≡ cond (is_none result)
        (left.old
        - length (edit_stores g Rename user name.now new.now volume.old))
        left.old }
{
    let first = directory::find(g, volume, user, name, Wanted::File);
    let why = call_answers::first_of(before, rename_why(g, volume, first, user, name, new));
    if call_answers::is_none(why) {
        call_sweep::change_most(g, volume, first, user, name, new, Edit::Rename, left);
    }
    why
}

// Gives all entries of the file the attribute bits of the name's bytes, as long as a store is left; or refuses, by an
// earlier refusal first, and alters nothing.
pub fn attribute_file(
    g: Geometry,
    volume: &mut [u8],
    user: u8,
    name: &[u8],
    before: Refusal,
    left: &mut usize,
) -> Refusal
    requires { VolumeAnd g volume.old (IsName name.now) }
    ensures value { result
        ≡ first before (first_met (attribute_tests g volume.old user (strip name.now))) }
    ensures volume_after { volume.new
        ≡ cond (is_none result)
        (cut g volume.old left.old
        (edit_stores g Attributes user name.now name.now volume.old))
        volume.old }
    ensures left_after { left.new
        ≡ cond (is_none result)
        (left.old
        - length (edit_stores g Attributes user name.now name.now volume.old))
        left.old }
{
    let first = directory::find(g, volume, user, name, Wanted::File);
    let no_match = call_answers::refuse(Refusal::NoMatch, g.slots() <= first);
    let why = call_answers::first_of(before, no_match);
    if call_answers::is_none(why) {
        call_sweep::change_most(g, volume, first, user, name, name, Edit::Attributes, left);
    }
    why
}
