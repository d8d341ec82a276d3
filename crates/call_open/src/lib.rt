// Open and close: the entry that the control block means.
#![tactic(auto)]

ghost use Rattle.std.specs.Prelude.{◌≡◌, true, ◌≤◌, ◌<◌};
ghost use Rattle.disk_geometry.specs.Geometry.{lawful, slots};
ghost use Rattle.disk_volume.specs.CodeLent.{VolumeAnd, IsFcb};
ghost use Rattle.call_answers.specs.Refusal.{is_none};
ghost use Rattle.call_open.specs.Open.{open_slot, close_slot};
ghost use Rattle.call_open.specs.CodeFound.{slot_why, open_why, close_why, opened_or};

use call_answers::Refusal;
use disk_geometry::Geometry;
use disk_volume::Wanted;
use disk_volume::fields::{EX, NAME, NAME_END, S2};

// What open and close hand back: why they are refused, and the slot of the entry that is meant.
#[derive(Clone, Copy)]
pub struct Found {
    pub why: Refusal,
    pub slot: usize,
}

// The slot that open means, the number of slots where there is none.
fn slot_to_open(g: Geometry, volume: &[u8], fcb: &[u8], user: u8) -> usize
    requires { VolumeAnd g volume.now (IsFcb fcb.now) }
    ensures { (result ≡ open_slot g volume.now user fcb.now) × (result ≤ slots g) }
{
    let k = g.group(usize::from(fcb[EX]));
    disk_volume::directory::find(g, volume, user, &fcb[NAME..NAME_END], Wanted::MatchGroup(k))
}

// Why the slot that is meant is refused: the position does not fit, or the slot is none.
fn slot_why(g: Geometry, fits: bool, slot: usize) -> Refusal
    requires { lawful g ≡ true }
    ensures value { result ≡ slot_why g fits slot }
    ensures slot_bound { is_none result ≡ true → slot < slots g }
{
    let unfit = call_answers::refuse(Refusal::Position, !fits);
    let no_match = call_answers::refuse(Refusal::NoMatch, g.slots() <= slot);
    call_answers::first_of(unfit, no_match)
}

// Opens: shows the entry in the control block, or refuses. Answers why, and the slot that is meant.
pub fn open_file(g: Geometry, volume: &[u8], fcb: &mut [u8], user: u8) -> Found
    requires { VolumeAnd g volume.now (IsFcb fcb.old) }
    ensures why_value { result.why ≡ open_why g volume.now user fcb.old }
    ensures slot_value { result.slot ≡ open_slot g volume.now user fcb.old }
    ensures fcb_after { fcb.new ≡ opened_or g volume.now result fcb.old }
{
    let slot = slot_to_open(g, volume, fcb, user);
    let why = slot_why(g, fcb[EX] <= 31, slot);
    if call_answers::is_none(why) {
        let at = g.slot_start(slot);
        call_fcb::set_open(fcb, &volume[at..at + Geometry::ENTRY_BYTES]);
    }
    Found { why, slot }
}

// The slot that close means, the number of slots where there is none.
fn slot_to_close(g: Geometry, volume: &[u8], fcb: &[u8], user: u8) -> usize
    requires { VolumeAnd g volume.now (IsFcb fcb.now) }
    ensures { (result ≡ close_slot g volume.now user fcb.now) × (result ≤ slots g) }
{
    let k = g.group(disk_volume::entry::extent_of(fcb));
    disk_volume::directory::find(g, volume, user, &fcb[NAME..NAME_END], Wanted::Group(k))
}

// Closes: the entry that is meant is there, or the call is refused. Answers why, and the slot that is meant.
pub fn close_file(g: Geometry, volume: &[u8], fcb: &[u8], user: u8) -> Found
    requires { VolumeAnd g volume.now (IsFcb fcb.now) }
    ensures why_value { result.why ≡ close_why g volume.now user fcb.now }
    ensures slot_value { result.slot ≡ close_slot g volume.now user fcb.now }
{
    let slot = slot_to_close(g, volume, fcb, user);
    let fits = (fcb[EX] <= 31) & (fcb[S2] <= 15);
    let why = slot_why(g, fits, slot);
    Found { why, slot }
}
