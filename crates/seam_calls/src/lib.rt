// Log-in, every other call and a call that is cut off, over the drive's bytes and whatever else is lent.
#![tactic(auto)]

ghost use Rattle.std.specs.Prelude.{◌≡◌, true, ◌||◌, List, [], ℕ};
ghost use Rattle.call_served.specs.Calls.{call_of};
ghost use Rattle.call_served.specs.declared.Call.TheVariants.{LogIn};
ghost use Rattle.disk_geometry.specs.Geometry.{geometry_of, with_placing};
ghost use Rattle.filecalls.specs.State.{is_open};
ghost use Rattle.filecalls.specs.CodeFront.{front_of, joined};
ghost use Rattle.bdos.specs.CodeWay.{way_of, asks, changes};
ghost use Rattle.drive_bytes.specs.Layout.{fields, is_drive};
ghost use Rattle.seam_calls.specs.Seam.{sealed, at_seam, log_in_at_seam, cut_at_seam};
ghost use Rattle.seam_calls.specs.CodeSeam.{asks_open, Tells, WayMost, CallMost};

use bdos::Way;
use call_answers::{Answer, Refusal};
use call_served::Call;
use disk_held::WORDS;
use filecalls::{Drive, ENOUGH, Front};
use seam_words::{geometry, seal, size};

mod copies;

// What is told of a call: its answer as one number, and whether it succeeded.
#[derive(Clone, Copy)]
struct Told {
    answer: u32,
    done: bool,
}

// What is told of an answer.
fn tell(answer: Answer) -> Told
    ensures { Tells answer result }
{
    Told {
        answer: seal(answer),
        done: call_answers::succeeded(answer),
    }
}

// Does the call ask by itself whether the state is open?
fn asks_open(kind: Call) -> bool
    ensures { result ≡ asks_open kind }
{
    match kind {
        Call::LogIn | Call::Unserved => false,
        Call::Open
        | Call::Close
        | Call::SearchFirst
        | Call::SearchNext
        | Call::Delete
        | Call::Make
        | Call::Rename
        | Call::Protect
        | Call::Attributes
        | Call::User
        | Call::Size
        | Call::SetRandom
        | Call::Moves(_) => true,
    }
}

// May the call go through the door? The seam asks where the call does not.
fn may_enter(kind: Call, front: Front) -> bool
    ensures { (held : List ℕ) → result ≡ (asks_open kind || is_open (joined front held)) }
{
    if asks_open(kind) {
        return true;
    }
    front.is_open()
}

// Logs the volume in anew with the drive's own geometry, whatever is lent beside it.
fn log_in_anew(front: Front, drive: &mut [u8], volume: &[u8]) -> Answer
    requires { (is_drive drive.old ≡ true) × (front ≡ front_of (fields drive.old)) }
    ensures { (most n p : ℕ) (f b : List ℕ) → call_of n ≡ LogIn
        → WayMost most n p drive.old volume.now f b result drive.new volume.now f b most }
{
    if !front.is_open() {
        return Answer::Refused(Refusal::Closed);
    }
    let reply = Drive::log_in(front.geometry, volume);
    drive_bytes::encode(reply.drive, drive);
    reply.answer
}

// Does a call that asks. Where it succeeds its front is laid back; the held blocks are as they were.
fn ask(
    kind: Call,
    parameter: u8,
    front: Front,
    drive: &mut [u8],
    volume: &[u8],
    fcb: &mut [u8],
    buffer: &mut [u8],
) -> Answer
    requires { (is_drive drive.old ≡ true) × (front ≡ front_of (fields drive.old)) }
    ensures { (most n : ℕ) → kind ≡ call_of n → asks (way_of kind) ≡ true
        → WayMost most n parameter drive.old volume.now fcb.old buffer.old result
        drive.new volume.now fcb.new buffer.new most }
{
    if !may_enter(kind, front) {
        return Answer::Refused(Refusal::Closed);
    }
    let reply = bdos::ask(kind, parameter, front, volume, fcb, buffer);
    if call_answers::succeeded(reply.answer) {
        drive_bytes::lay_front(drive, reply.front);
    }
    reply.answer
}

// Does a call that changes the volume, as long as a store is left. Where it succeeds the held blocks are laid back; the front is as
// it was.
fn change(
    kind: Call,
    parameter: u8,
    front: Front,
    drive: &mut [u8],
    volume: &mut [u8],
    fcb: &mut [u8],
    buffer: &[u8],
    left: &mut usize,
) -> Answer
    requires { (is_drive drive.old ≡ true) × (front ≡ front_of (fields drive.old)) }
    ensures { (n : ℕ) → kind ≡ call_of n → changes (way_of kind) ≡ true
        → WayMost left.old n parameter drive.old volume.old fcb.old
        buffer.now result drive.new volume.new fcb.new buffer.now
        left.new }
{
    let mut held = [0u64; WORDS];
    drive_bytes::load_words(drive, &mut held);
    let reply = bdos::change(kind, parameter, front, &mut held, volume, fcb, buffer, left);
    if call_answers::succeeded(reply.answer) {
        drive_bytes::lay_words(drive, &held);
    }
    reply.answer
}

// Does the call over a drive's bytes, by its way through the door, as long as a store is left.
fn call_of_kind(
    kind: Call,
    parameter: u8,
    front: Front,
    drive: &mut [u8],
    volume: &mut [u8],
    fcb: &mut [u8],
    buffer: &mut [u8],
    left: &mut usize,
) -> Answer
    requires { (is_drive drive.old ≡ true) × (front ≡ front_of (fields drive.old)) }
    ensures { (n : ℕ) → kind ≡ call_of n
        → WayMost left.old n parameter drive.old volume.old fcb.old
        buffer.old result drive.new volume.new fcb.new buffer.new
        left.new }
{
    match bdos::way_of(kind) {
        Way::LogsIn => log_in_anew(front, drive, volume),
        Way::Asks => ask(kind, parameter, front, drive, volume, fcb, buffer),
        Way::Changes => change(kind, parameter, front, drive, volume, fcb, buffer, left),
    }
}

// Logs the volume in: the drive becomes the state that calls take, or zero bytes where the log-in is refused.
pub fn log_in(
    block_bytes: u32,
    blocks: u32,
    directory_blocks: u32,
    placing: u32,
    volume: &[u8],
    drive: &mut [u8],
) -> u32
    ensures { sealed result drive.new volume.now [] []
        ≡ log_in_at_seam (with_placing (geometry_of block_bytes blocks directory_blocks) placing) volume.now
        drive.old }
{
    let g = geometry(block_bytes, blocks, directory_blocks, placing);
    if drive.len() != drive_bytes::length_for(g.blocks) {
        return seal(Answer::Refused(Refusal::Closed));
    }
    let reply = Drive::log_in(g, volume);
    drive_bytes::encode(reply.drive, drive);
    seal(reply.answer)
}

// Does the call of this function's number over the drive's bytes as long as a store is left; a drive that counts as closed is
// refused by 32. Where a call is refused the drive's bytes stay, unless it logs in.
fn call_most(
    function: u8,
    parameter: u8,
    drive: &mut [u8],
    volume: &mut [u8],
    fcb: &mut [u8],
    buffer: &mut [u8],
    left: &mut usize,
) -> Told
    ensures { CallMost left.old function parameter drive.old volume.old fcb.old
        buffer.old result drive.new volume.new fcb.new buffer.new left.new }
{
    if !drive_bytes::is_drive(drive) {
        return tell(Answer::Refused(Refusal::Closed));
    }
    let front = drive_bytes::fields(drive);
    let kind = call_served::call_of(function);
    let answer = call_of_kind(kind, parameter, front, drive, volume, fcb, buffer, left);
    tell(answer)
}

// Does the call of this function's number over the drive's bytes.
pub fn call(
    function: u8,
    parameter: u8,
    drive: &mut [u8],
    volume: &mut [u8],
    fcb: &mut [u8],
    buffer: &mut [u8],
) -> u32
    ensures { sealed result drive.new volume.new fcb.new buffer.new
        ≡ at_seam function parameter drive.old volume.old fcb.old buffer.old }
{
    let mut left = ENOUGH;
    let told = call_most(function, parameter, drive, volume, fcb, buffer, &mut left);
    told.answer
}

// Does the call of this function's number with at most so many stores, and closes the drive: the machine is gone. What is left
// is the volume, cut there.
pub fn cut(
    most: u32,
    function: u8,
    parameter: u8,
    drive: &mut [u8],
    volume: &mut [u8],
    fcb: &[u8],
    buffer: &[u8],
) -> u32
    ensures { sealed result drive.new volume.new fcb.now buffer.now
        ≡ cut_at_seam most function parameter drive.old volume.old fcb.now buffer.now }
{
    if !drive_bytes::has_length(drive) {
        return seal(Answer::Refused(Refusal::Closed));
    }
    let d = drive_bytes::front(drive);
    if !d.is_open() {
        drive.fill(0);
        return seal(Answer::Refused(Refusal::Closed));
    }
    let r = copies::cut_open(size(most), function, parameter, drive, volume, fcb, buffer);
    drive.fill(0);
    r
}
