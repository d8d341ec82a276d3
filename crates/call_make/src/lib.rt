// Make: the tests of the control block and of the directory, the new entry, and the call itself.
#![tactic(auto)]

ghost use Rattle.std.specs.Prelude.{◌≡◌, true, cond, ◌-◌, ◌<◌};
ghost use Rattle.disk_volume.specs.declared.Wanted.TheVariants.{Empty};
ghost use Rattle.disk_geometry.specs.Geometry.{slots};
ghost use Rattle.disk_volume.specs.Name.{strip, name_of};
ghost use Rattle.disk_volume.specs.Directory.{find_slot};
ghost use Rattle.disk_volume.specs.CodeLent.{VolumeAnd, IsName, IsFcb};
ghost use Rattle.disk_stores.specs.Stores.{cut, entry_stores};
ghost use Rattle.call_fcb.specs.Fcb.{made};
ghost use Rattle.call_answers.specs.Refusal.{is_none, first, first_met};
ghost use Rattle.call_make.specs.Make.{make_tests, fresh_entry};
ghost use Rattle.call_make.specs.CodeNewFile.{new_file_tests};

use call_answers::Refusal;
use disk_geometry::Geometry;
use disk_volume::{Wanted, directory, fields};

// What make hands back: why it is refused, and the lowest empty slot.
#[derive(Clone, Copy)]
pub struct Made {
    pub why: Refusal,
    pub slot: usize,
}

// Why no file can be made of the control block, whatever the directory holds: 45, then 40.
pub fn new_file_why(fcb: &[u8]) -> Refusal
    requires { IsFcb fcb.now }
    ensures { result ≡ first_met (new_file_tests fcb.now) }
{
    let untypeable = call_answers::refuse(
        Refusal::Untypeable,
        !call_typing::typeable_name(&fcb[fields::NAME..fields::NAME_END]),
    );
    let position = call_answers::refuse(Refusal::Position, fcb[fields::EX] != 0);
    call_answers::first_of(untypeable, position)
}

// Why the file can't be made, by an earlier refusal first, and the slot that it goes to.
fn make_why(g: Geometry, volume: &[u8], user: u8, name: &[u8], before: Refusal) -> Made
    requires { VolumeAnd g volume.now (IsName name.now) }
    ensures why_value { result.why
        ≡ first before (first_met (make_tests g volume.now user (strip name.now))) }
    ensures slot_value { result.slot ≡ find_slot g volume.now user (strip name.now) Empty }
    ensures slot_bound { is_none result.why ≡ true → result.slot < slots g }
{
    let slots = g.slots();
    let taken = directory::find(g, volume, user, name, Wanted::File);
    let slot = directory::find_empty(g, volume, user, name);
    let exists = call_answers::refuse(Refusal::Exists, taken < slots);
    let no_room = call_answers::refuse(Refusal::NoRoom, slots <= slot);
    let why = call_answers::first_of(before, call_answers::first_of(exists, no_room));
    Made { why, slot }
}

// A new entry of this user and name, with nothing in it.
pub fn fresh_entry(user: u8, name: &[u8]) -> [u8; Geometry::ENTRY_BYTES]
    requires { IsName name.now }
    ensures { result ≡ fresh_entry user (strip name.now) }
{
    let mut e = [0u8; Geometry::ENTRY_BYTES];
    e[fields::USER] = user;
    call_sweep::lay_name(&mut e[fields::NAME..fields::NAME_END], name);
    e
}

// Makes the file of the control block's name: its entry in the lowest empty slot, if a store is left, and the control
// block; or refuses, by an earlier refusal first, and alters nothing.
pub fn make_file(
    g: Geometry,
    volume: &mut [u8],
    fcb: &mut [u8],
    user: u8,
    before: Refusal,
    left: &mut usize,
) -> Made
    requires { VolumeAnd g volume.old (IsFcb fcb.old) }
    ensures why_value { result.why
        ≡ first before (first_met (make_tests g volume.old user (name_of fcb.old))) }
    ensures slot_value { result.slot ≡ find_slot g volume.old user (name_of fcb.old) Empty }
    ensures volume_after { volume.new
        ≡ cond (is_none result.why)
        (cut g volume.old left.old
        (entry_stores g volume.old result.slot (fresh_entry user (name_of fcb.old))))
        volume.old }
    ensures fcb_after { fcb.new
        ≡ cond (is_none result.why)
        (made fcb.old (name_of fcb.old))
        fcb.old }
    ensures left_after { left.new ≡ cond (is_none result.why) (left.old - 1) left.old }
{
    let mut name = [0u8; fields::NAME_BYTES];
    call_sweep::lay_name(&mut name, &fcb[fields::NAME..fields::NAME_END]);
    let plan = make_why(g, volume, user, &name, before);
    if call_answers::is_none(plan.why) {
        let e = fresh_entry(user, &name);
        disk_stores::put_slot(g, volume, plan.slot, &e, left);
        call_fcb::set_made(fcb, &name);
    }
    plan
}
