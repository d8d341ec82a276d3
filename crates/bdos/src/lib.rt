// One door to the file calls: the function's number decides which call is done. A call that changes the volume is given a number of
// stores and ends when none is left: what it leaves of the volume is its stores cut there. The call is that with enough of them.
#![tactic(auto)]

ghost use Rattle.std.specs.Prelude.{◌≡◌, true, List, ℕ};
ghost use Rattle.disk_geometry.specs.declared.Geometry.{Geometry};
ghost use Rattle.filecalls.specs.Outcome.{left};
ghost use Rattle.filecalls.specs.Stores.{CutAfter, cut_left};
ghost use Rattle.filecalls.specs.CodeFront.{joined, joined_reply};
ghost use Rattle.bdos.specs.Step.{carries, does, step};
ghost use Rattle.bdos.specs.Stores.{transfer_stores, call_stores};
ghost use Rattle.bdos.specs.CodeWay.{way_moved, way_of, asks, changes};
ghost use Rattle.call_served.specs.Asked.{asked};

use call_answers::Refusal;
use call_served::{Call, Transfer};
use disk_geometry::Geometry;
use disk_held::WORDS;
use filecalls::{Drive, ENOUGH, Front, FrontReply, Reply};

// How a call goes through the door: it logs in, it asks of state and volume, or it changes the volume.
#[derive(Clone, Copy)]
pub enum Way {
    LogsIn,
    Asks,
    Changes,
}

// The way of a call that moves records.
fn way_moved(kind: Transfer) -> Way
    ensures { result ≡ way_moved kind }
{
    match kind {
        Transfer::ReadSequential => Way::Asks,
        Transfer::WriteSequential => Way::Changes,
        Transfer::ReadRandom => Way::Asks,
        Transfer::WriteRandom => Way::Changes,
        Transfer::WriteZeroFill => Way::Changes,
        Transfer::ReadSeveral => Way::Asks,
        Transfer::WriteSeveral => Way::Changes,
    }
}

// The way of a call; a number that is not served changes nothing.
pub fn way_of(kind: Call) -> Way
    ensures { result ≡ way_of kind }
{
    match kind {
        Call::LogIn => Way::LogsIn,
        Call::Open => Way::Asks,
        Call::Close => Way::Asks,
        Call::SearchFirst => Way::Asks,
        Call::SearchNext => Way::Asks,
        Call::Delete => Way::Changes,
        Call::Make => Way::Changes,
        Call::Rename => Way::Changes,
        Call::Protect => Way::Asks,
        Call::Attributes => Way::Changes,
        Call::User => Way::Asks,
        Call::Size => Way::Asks,
        Call::SetRandom => Way::Asks,
        Call::Moves(moved) => way_moved(moved),
        Call::Unserved => Way::Asks,
    }
}

// Reads records: one or several.
fn read(
    kind: Transfer,
    parameter: u8,
    front: Front,
    volume: &[u8],
    fcb: &mut [u8],
    buffer: &mut [u8],
) -> FrontReply
    ensures { (held : List ℕ) → asks (way_moved kind) ≡ true
        → left (joined_reply result held) volume.now fcb.new buffer.new
        ≡ carries kind parameter (joined front held) volume.now fcb.old buffer.old }
{
    match kind {
        Transfer::ReadSequential => front.read_sequential(volume, fcb, buffer),
        Transfer::ReadRandom => front.read_random(volume, fcb, buffer),
        Transfer::ReadSeveral => several::read(front, volume, fcb, buffer, parameter),
        Transfer::WriteSequential => front.refused(Refusal::NotServed),
        Transfer::WriteRandom => front.refused(Refusal::NotServed),
        Transfer::WriteZeroFill => front.refused(Refusal::NotServed),
        Transfer::WriteSeveral => front.refused(Refusal::NotServed),
    }
}

// Does a call that asks.
pub fn ask(
    kind: Call,
    parameter: u8,
    front: Front,
    volume: &[u8],
    fcb: &mut [u8],
    buffer: &mut [u8],
) -> FrontReply
    ensures { (g : Geometry) (held : List ℕ) → asks (way_of kind) ≡ true
        → left (joined_reply result held) volume.now fcb.new buffer.new
        ≡ does g kind parameter (joined front held) volume.now fcb.old buffer.old }
{
    match kind {
        Call::Open => front.open_file(volume, fcb),
        Call::Close => front.close_file(volume, fcb),
        Call::SearchFirst => front.search_first(volume, fcb, buffer),
        Call::SearchNext => front.search_next(volume, buffer),
        Call::Protect => front.protect(),
        Call::User => front.user_code(parameter),
        Call::Size => front.file_size(volume, fcb),
        Call::SetRandom => front.set_random(fcb),
        Call::Moves(moved) => read(moved, parameter, front, volume, fcb, buffer),
        Call::LogIn => front.refused(Refusal::NotServed),
        Call::Delete => front.refused(Refusal::NotServed),
        Call::Make => front.refused(Refusal::NotServed),
        Call::Rename => front.refused(Refusal::NotServed),
        Call::Attributes => front.refused(Refusal::NotServed),
        Call::Unserved => front.refused(Refusal::NotServed),
    }
}

// Writes records as long as a store is left: one or several.
fn write(
    kind: Transfer,
    parameter: u8,
    front: Front,
    held: &mut [u64; WORDS],
    volume: &mut [u8],
    fcb: &mut [u8],
    buffer: &[u8],
    left: &mut usize,
) -> FrontReply
    ensures { changes (way_moved kind) ≡ true
        → CutAfter left.old front.geometry volume.old
        (transfer_stores kind parameter (joined front held.old) volume.old fcb.old
        buffer.now)
        (carries kind parameter (joined front held.old) volume.old fcb.old
        buffer.now)
        (cut_left (joined_reply result held.new) volume.new fcb.new buffer.now
        left.new) }
{
    match kind {
        Transfer::WriteSequential => front.write_sequential_most(held, volume, fcb, buffer, left),
        Transfer::WriteRandom => front.write_direct_most(held, volume, fcb, buffer, false, left),
        Transfer::WriteZeroFill => front.write_direct_most(held, volume, fcb, buffer, true, left),
        Transfer::WriteSeveral => several::write_most(
            front, held, volume, fcb, buffer, parameter, left,
        ),
        Transfer::ReadSequential => front.refused(Refusal::NotServed),
        Transfer::ReadRandom => front.refused(Refusal::NotServed),
        Transfer::ReadSeveral => front.refused(Refusal::NotServed),
    }
}

// Does a call that changes the volume, as long as a store is left.
pub fn change(
    kind: Call,
    parameter: u8,
    front: Front,
    held: &mut [u64; WORDS],
    volume: &mut [u8],
    fcb: &mut [u8],
    buffer: &[u8],
    left: &mut usize,
) -> FrontReply
    ensures { (g : Geometry) → changes (way_of kind) ≡ true
        → CutAfter left.old front.geometry volume.old
        (call_stores kind parameter (joined front held.old) volume.old fcb.old
        buffer.now)
        (does g kind parameter (joined front held.old) volume.old fcb.old
        buffer.now)
        (cut_left (joined_reply result held.new) volume.new fcb.new buffer.now
        left.new) }
{
    match kind {
        Call::Delete => front.delete_most(held, volume, fcb, left),
        Call::Make => front.make_most(volume, fcb, left),
        Call::Rename => front.rename_most(volume, fcb, left),
        Call::Attributes => front.attributes_most(volume, fcb, left),
        Call::Moves(moved) => write(moved, parameter, front, held, volume, fcb, buffer, left),
        Call::LogIn => front.refused(Refusal::NotServed),
        Call::Open => front.refused(Refusal::NotServed),
        Call::Close => front.refused(Refusal::NotServed),
        Call::SearchFirst => front.refused(Refusal::NotServed),
        Call::SearchNext => front.refused(Refusal::NotServed),
        Call::Protect => front.refused(Refusal::NotServed),
        Call::User => front.refused(Refusal::NotServed),
        Call::Size => front.refused(Refusal::NotServed),
        Call::SetRandom => front.refused(Refusal::NotServed),
        Call::Unserved => front.refused(Refusal::NotServed),
    }
}

// Does the call of this function's number.
pub fn enter(
    g: Geometry,
    function: u8,
    parameter: u8,
    drive: Drive,
    volume: &mut [u8],
    fcb: &mut [u8],
    buffer: &mut [u8],
) -> Reply
    ensures { left result volume.new fcb.new buffer.new
        ≡ step g (asked function parameter fcb.old buffer.old) drive volume.old }
{
    let kind = call_served::call_of(function);
    let way = way_of(kind);
    let front = drive.front();
    let mut held = drive.held;
    match way {
        Way::LogsIn => Drive::log_in(g, volume),
        Way::Asks => {
            let told = ask(kind, parameter, front, volume, fcb, buffer);
            told.joined(held)
        }
        Way::Changes => {
            let mut left = ENOUGH;
            let changed = change(
                kind, parameter, front, &mut held, volume, fcb, buffer, &mut left,
            );
            changed.joined(held)
        }
    }
}
